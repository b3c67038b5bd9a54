// Reading the table of cases: a line's numbers stand apart by spaces, hexadecimal behind an x; a line with a `#` is a remark.

// By hand: `char::to_digit` takes `A` to `F` for digits too, which are none here.
fn digit(octet: u8) -> Option<u32> {
    match octet {
        b'0'..=b'9' => Some(u32::from(octet - b'0')),
        b'a'..=b'f' => Some(u32::from(octet - b'a') + 10),
        _ => None,
    }
}

// The number of these digits; what is no digit among them is passed over, and of a number too large the upper bits are lost. So
// `u32::from_str_radix` is not what is wanted: it refuses both, and in base 10 the letters, which count as 10 to 15 here.
fn value(base: u32, digits: &[u8]) -> u32 {
    let mut value = 0u32;
    for digit in digits.iter().filter_map(|octet| digit(*octet)) {
        value = (value % 0x1000000).wrapping_mul(base).wrapping_add(digit);
    }
    value
}

// The number that a word says: the digits behind its last x, hexadecimal, and 0 where there is none behind it; or, where the word has no x, its
// decimal digits, and no number where there is none.
fn number(word: &[u8]) -> Option<u32> {
    match word.iter().rposition(|octet| *octet == b'x') {
        Some(x) => Some(value(16, &word[x + 1..])),
        None => word
            .iter()
            .any(|octet| digit(*octet).is_some())
            .then(|| value(10, word)),
    }
}

// Puts a line's numbers into the room, and answers them; none where the room is too short. A remark has none.
pub(crate) fn read<'a>(line: &[u8], room: &'a mut [u32]) -> Option<&'a [u32]> {
    if line.contains(&b'#') {
        return Some(&[]);
    }
    let mut count = 0;
    let numbers = line
        .split(|octet| *octet == b' ')
        .filter_map(|word| number(word));
    for (i, number) in numbers.enumerate() {
        *room.get_mut(i)? = number;
        count = i + 1;
    }
    room.get(..count)
}
