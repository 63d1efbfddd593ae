// The lines of a page, written into an output.
ghost use Rattle.std.specs.Prelude.{◌≡◌, ◌+◌, ◌-◌, ◌*◌, ◌%◌, ◌<◌, ◌≤◌, [], ◌∷◌, ◌++◌, length, take, drop, replicate};
ghost use Rattle.rules.specs.SheetLines.{ended};
ghost use Rattle.rules.specs.Page.{columns, heading, page_line};
ghost use Rattle.text.specs.Printing.{printed_over};

// The last digit of a number.
fn digit(n: usize) -> u8
    ensures { result ≡ 48 + n % 10 }
{
    b'0' + (n % 10) as u8
}

// Blanks from one position to another, and byte 10.
fn end_line(output: &mut [u8], from: usize, to: usize)
    requires { (from ≤ to) × (to < length output.old) }
    ensures { output.new ≡ printed_over output.old from (replicate (to - from) 32 ++ 10 ∷ []) }
{
    output[from..to].fill(b' ');
    output[to] = b'\n';
}

// The first line of a page.
pub(crate) fn put_heading(output: &mut [u8], at: usize, number: usize)
    requires { at + 73 ≤ length output.old }
    ensures { output.new ≡ printed_over output.old at (heading number ++ 10 ∷ []) }
{
    let front = [
        b'P',
        b'A',
        b'G',
        b'E',
        b' ',
        digit(number / 1000),
        digit(number / 100),
        digit(number / 10),
        digit(number),
    ];
    output[at..at + 9].copy_from_slice(&front);
    end_line(output, at + 9, at + 72);
}

// So many bytes from a position on, copied to columns that stand before it, and blanks.
#[inline(always)]
fn put_columns(output: &mut [u8], from: usize, count: usize, at: usize, to: usize)
    requires { (at ≤ from) × (at + count ≤ to) × (from + count ≤ length output.old) × (to ≤ length output.old) }
    ensures { output.new ≡ printed_over output.old at (columns (to - at) (take count (drop from output.old))) }
{
    output.copy_within(from..from + count, at);
    output[at + count..to].fill(b' ');
}

// The columns of a key of so many bytes, which ends before a position. Most lines of a long text have none.
#[inline(always)]
fn put_key(output: &mut [u8], end: usize, key: usize, at: usize)
    requires { (key ≤ 8) × (at + 8 ≤ end) × (end ≤ length output.old) × (at + 9 ≤ length output.old) }
    ensures { output.new ≡ printed_over output.old at (columns 9 (take key (drop (end - key) output.old))) }
{
    if key == 0 {
        put_columns(output, end, 0, at, at + 9);
    } else {
        put_columns(output, end - key, key, at, at + 9);
    }
}

// A line with a key of so many bytes, and with so many bytes of the text from a position on; the key stands before the byte before it.
pub(crate) fn put_line(output: &mut [u8], at: usize, key: usize, from: usize, count: usize)
    requires { (key ≤ 8) × (count ≤ 63) × (at + 9 ≤ from) × (from + count ≤ length output.old) × (at + 73 ≤ length output.old) }
    ensures { output.new ≡ printed_over output.old at (page_line (take key (drop (from - 1 - key) output.old)) (take count (drop from output.old)) ++ 10 ∷ []) }
{
    put_key(output, from - 1, key, at);
    put_columns(output, from, count, at + 9, at + 72);
    output[at + 72] = b'\n';
}

// So many blank lines.
pub(crate) fn put_blank_lines(output: &mut [u8], at: usize, count: usize)
    requires { at + 73 * count ≤ length output.old }
    ensures { output.new ≡ printed_over output.old at (ended (replicate count (page_line [] []))) }
{
    for i in 0..count {
        let from = at + 73 * i;
        end_line(output, from, from + 72);
    }
}
