// Replays a trace from a file or standard input to standard output (docs/RULES.md, "The trace and its replay"); installed as tup-replay.
#![tactic(auto)]

fn main(rt: HostRuntime) {
    console::start(
        &rt,
        console::REPLAY,
        b"tup-replay",
        b"usage: tup-replay [--names] [FILE]

Replays a trace of one group of TUP circuits, and prints what each event did.

The trace is octets, read from FILE, or from standard input where no FILE is
named or FILE is -. A trace in its readable form is made into octets first:
  tup-octets FILE | tup-replay

  --names  print words for the numbers
  --help   print this text

The first line is the group: the two point codes and how many circuits it has.
Each further line is an event, in seven columns with a space between them:
  ordinal     which event of the trace it is, counted from 1
  circuit     the circuit's number
  refusal     0 where the event was accepted, else why it was not
  state       the circuit's state after the event
  flags       its flags, added up: 1 own block, 2 far block,
              4 awaiting BLA, 8 awaiting UBA
  indication  what the host is told, 0 for nothing
  headings    what is sent, in order, with a comma between two; - for nothing
Where the group has no such circuit, state and flags are -.

The last line says how it went. The exit status does not: a program of this
kind has none of its own.
  end N       the whole trace was replayed, N events
  cut N       the trace was cut or malformed where event N would have been
  bad group   the trace does not begin with a good group
No such last line: reading or writing failed, as standard error then says.
",
    );
}
