// Text put into lent bytes: a byte, a word, a number in decimal and in upper-case hexadecimal.
// Each call stores what fits from a place on and answers the next place, so a line is a chain of
// calls that asks nothing of its caller. The definitions stand in specs/Text.
#![tactic(auto)]

pub mod digits;

ghost use Rattle.std.specs.Prelude.{◌≡◌, ◌+◌, ◌<◌, ◌≤◌, [], ◌∷◌, ◌++◌, length, take};
ghost use Rattle.std.proofs.lemmas.List.Edits.{sets};
ghost use Rattle.text.specs.Text.{Put, digit as Text·digit, hexadecimal, decimal, refusal_text};

pub fn put_byte(out: &mut [u8], at: usize, byte: u8) -> usize
    ensures { Put out.old at (byte ∷ []) out.new result }
{
    let size = out.len();
    if at < size {
        out[at] = byte;
        return at + 1;
    }
    size
}

// Where it fits it is copied, which a text of known length is in a store or two; else as far as it fits.
pub fn put_text(out: &mut [u8], at: usize, text: &[u8]) -> usize
    ensures { Put out.old at text.now out.new result }
{
    let start = place(out, at);
    let room = out.len() - start;
    if room < text.len() {
        copy_in(out, start, &text[..room]);
        return out.len();
    }
    copy_in(out, start, text);
    start + text.len()
}

// By bytes: `copy_from_slice` of a length that is not known is compiled into a call of memmove, which the archive may not need.
fn copy_in(out: &mut [u8], start: usize, text: &[u8])
    requires { start + length text.now ≤ length out.old }
    ensures { out.new ≡ sets out.old start text.now }
{
    for i in 0..text.len() {
        out[start + i] = text[i];
    }
}

// The last `width` hexadecimal digits, with zeros in front.
pub fn put_hexadecimal(out: &mut [u8], at: usize, width: usize, number: u64) -> usize
    ensures { Put out.old at (hexadecimal width number) out.new result }
{
    if width == 0 {
        return place(out, at);
    }
    let next = put_hexadecimal(out, at, width - 1, number / 16);
    put_byte(out, next, digit(number % 16))
}

// All digits and no zeros in front. Where they fit they are stored from the last on, and else one by one as far as they do.
pub fn put_decimal(out: &mut [u8], at: usize, number: u64) -> usize
    ensures { Put out.old at (decimal number) out.new result }
{
    let start = place(out, at);
    let count = digit_count(number);
    if out.len() - start < count {
        return put_digits(out, at, number);
    }
    store_digits(out, start, count, number);
    start + count
}

fn put_digits(out: &mut [u8], at: usize, number: u64) -> usize
    ensures { Put out.old at (decimal number) out.new result }
{
    if number < 10 {
        return put_byte(out, at, digit(number));
    }
    let next = put_digits(out, at, number / 10);
    put_byte(out, next, digit(number % 10))
}

fn store_digits(out: &mut [u8], start: usize, count: usize, number: u64)
    requires { (count ≡ length (decimal number)) × (start + count ≤ length out.old) }
    ensures { out.new ≡ sets out.old start (decimal number) }
{
    let mut left = number;
    for i in (1..count).rev() {
        out[start + i] = digit(left % 10);
        left /= 10;
    }
    out[start] = digit(left);
}

// How many digits a number has, eight at a time.
fn digit_count(number: u64) -> usize
    ensures { result ≡ length (decimal number) }
{
    let mut left = number;
    let mut count = 0;
    while 100000000 <= left {
        left /= 100000000;
        count += 8;
    }
    count + small_count(left)
}

fn small_count(number: u64) -> usize
    requires { number < 100000000 }
    ensures { (result ≡ length (decimal number)) × (result ≤ 8) }
{
    match number {
        ..10 => 1,
        ..100 => 2,
        ..1000 => 3,
        ..10000 => 4,
        ..100000 => 5,
        ..1000000 => 6,
        ..10000000 => 7,
        _ => 8,
    }
}

// A name and a number in decimal.
pub fn put_named(out: &mut [u8], at: usize, name: &[u8], number: u64) -> usize
    ensures { Put out.old at (name.now ++ decimal number) out.new result }
{
    let next = put_text(out, at, name);
    put_decimal(out, next, number)
}

// A name and the last `width` hexadecimal digits of a number.
pub fn put_named_hexadecimal(
    out: &mut [u8],
    at: usize,
    name: &[u8],
    width: usize,
    number: u64,
) -> usize
    ensures { Put out.old at (name.now ++ hexadecimal width number) out.new result }
{
    let next = put_text(out, at, name);
    put_hexadecimal(out, next, width, number)
}

// The line of what is refused by a number: `refused N`.
pub fn put_refusal(out: &mut [u8], at: usize, number: u8) -> usize
    ensures { Put out.old at (refusal_text number) out.new result }
{
    let next = put_named(out, at, b"refused ", u64::from(number));
    put_byte(out, next, b'\n')
}

// The next place when nothing is put.
pub fn place(out: &[u8], at: usize) -> usize
    ensures { Put out.now at [] out.now result }
{
    at.min(out.len())
}

// The first `count` bytes, or all: what was put, for a writer.
pub fn front(bytes: &[u8], count: usize) -> &[u8]
    ensures { result.now ≡ take count bytes.now }
{
    &bytes[..count.min(bytes.len())]
}

fn digit(value: u64) -> u8
    requires { value < 16 }
    ensures { result ≡ Text·digit value }
{
    if value < 10 {
        48 + value as u8
    } else {
        55 + value as u8
    }
}
