// Lists messages of a link from a file or standard input on standard output (docs/RULES.md, "A file of messages"); installed as tup-messages.
#![tactic(auto)]

fn main(rt: HostRuntime) {
    console::start(
        &rt,
        console::LISTING,
        b"tup-messages",
        b"usage: tup-messages [--names] [FILE]

Reads messages of one group of TUP circuits as they came from the link, and
prints for each what it says, or why and where it is refused.

The file is octets, read from FILE, or from standard input where no FILE is
named or FILE is -: the group as a trace has it, then the messages, each
behind one octet that says how many octets it has. A file in its readable form
is made into octets first:
  tup-octets FILE | tup-messages

  --names  print words for the numbers
  --help   print this text

The first line is the group: the two point codes and how many circuits it has.
Each further line is a message, in six columns with a space between them:
  ordinal     which message of the file it is, counted from 1
  refusal     0 where the message was read, else why it was not
  place       the octet to look at, the first of the message being 0; where
              the length is wrong, the length
  circuit     the circuit's number
  heading     the heading, in hexadecimal
  fields      of an ACM its octet; of an IAM category, indicators and the
              address signals, a hexadecimal digit for each; - for no fields
Where the message was refused, circuit, heading and fields are -.

The last line says how it went. The exit status does not: a program of this
kind has none of its own.
  end N       the whole file was listed, N messages
  cut N       the file ends within message N
  bad group   the file does not begin with a good group
No such last line: reading or writing failed, as standard error then says.
",
    );
}
