// Texts and numbers put into a buffer, from an offset on. By hand, and not by `Display`: a formatter may fail, for all that its contract says, and what
// is printed of a report is always there.
ghost use Rattle.std.specs.Prelude.{◌+◌, ◌≤◌, length};
ghost use Rattle.text.specs.Digits.{digits};
ghost use Rattle.printing.specs.Put.{Put};

// Puts a text, and answers where it ends.
pub fn put_text(out: &mut [u8], at: usize, text: &[u8]) -> usize
    requires { at + length text.now ≤ length out.old }
    ensures { Put out.old at text.now out.new result }
{
    let end = at + text.len();
    out[at..end].copy_from_slice(text);
    end
}

// Puts the decimal digits of a number, the last behind those of its tenth, and answers where they end.
pub fn put_number(out: &mut [u8], at: usize, n: u64) -> usize
    requires { at + length (digits n) ≤ length out.old }
    ensures { Put out.old at (digits n) out.new result }
{
    let mut last = at;
    if 10 <= n {
        last = put_number(out, at, n / 10);
    }
    out[last] = b'0' + (n % 10) as u8;
    last + 1
}
