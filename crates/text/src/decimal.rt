// Decimal numbers: reading with a bound, and printing.
ghost use Rattle.std.specs.Prelude.{◌≡◌, ◌+◌, ◌≤◌, length};
ghost use Rattle.rules.specs.Decimal.{number_up_to, decimal};
ghost use Rattle.text.specs.Printing.{Printed};

use super::is_digit;

// The number that a text is in decimal, with no leading zero, up to a bound.
pub fn number_up_to(text: &[u8], bound: usize) -> Option<usize>
    ensures { result ≡ number_up_to bound text.now }
{
    if matches!(text, [] | [b'0', _, ..]) {
        return None;
    }
    let mut n: usize = 0;
    for b in text {
        if !is_digit(*b) {
            return None;
        }
        let d = (*b - b'0') as usize;
        n = n.checked_mul(10)?.checked_add(d)?;
        if bound < n {
            return None;
        }
    }
    Some(n)
}

// How many digits a number has.
pub fn width_of(n: usize) -> usize
    ensures { result ≡ length (decimal n) }
{
    n.checked_ilog10().map_or(1, |k| k as usize + 1)
}

// Writes a number in decimal from `at` on, and gives where it ends. Display would write through a formatter, not into lent bytes.
pub fn print(n: usize, out: &mut [u8], at: usize) -> usize
    requires { at + length (decimal n) ≤ length out.old }
    ensures { Printed out.old out.new at (decimal n) result }
{
    let end = at + width_of(n);
    let mut m = n;
    for i in (at..end).rev() {
        out[i] = b'0' + (m % 10) as u8;
        m /= 10;
    }
    end
}
