// Text on a page, which is a lent buffer: each method puts its text behind what is there.
#![tactic(auto)]

ghost use Rattle.std.specs.Prelude.{◌+◌, ◌*◌, ◌/◌, ◌%◌, ◌≤◌, ◌<◌, ◌≡◌, [], ◌∷◌, length, take};
ghost use Rattle.std.proofs.lemmas.List.Edits.{sets};
ghost use Rattle.text.specs.Text.{blank, decimal, digit as digitOf, hex as hexOf, most_digits, Puts};
ghost use Rattle.text.specs.Plain.{Decimal, Hex};
ghost use Rattle.text.specs.Page.{PutOn};

// A lent buffer, and where the text in it ends.
#[derive(Drop)]
pub struct Page<'a> {
    pub out: &'a mut [u8],
    pub size: usize,
}

impl Page<'_> {
    // A number in decimal, rule 9.2.
    pub fn put_number(&mut self, n: u64)
        requires { self.old.size + most_digits ≤ length self.old.out.now }
        ensures put { PutOn (decimal n) self.old self.new }
        ensures most { self.new.size ≤ self.old.size + most_digits }
        ensures reads { Decimal n (decimal n) }
    {
        let k = count(n);
        store(self.out, self.size, n, k);
        self.size += k;
    }

    // Bytes in hex, upper case, a blank before each: rule 9.2.
    pub fn put_hex(&mut self, bytes: &[u8])
        requires { self.old.size + 3 * length bytes.now ≤ length self.old.out.now }
        ensures put { PutOn (hexOf bytes.now) self.old self.new }
        ensures three { self.new.size ≡ self.old.size + 3 * length bytes.now }
        ensures reads { Hex bytes.now (hexOf bytes.now) }
    {
        self.size = store_all(self.out, self.size, bytes);
    }

    // Words as they stand.
    pub fn put_text(&mut self, words: &[u8])
        requires { self.old.size + length words.now ≤ length self.old.out.now }
        ensures { PutOn words.now self.old self.new }
    {
        let end = self.size + words.len();
        self.out[self.size..end].copy_from_slice(words);
        self.size = end;
    }
}

// How many digits a number has: four for each turn, and the one to four that are left.
fn count(n: u64) -> usize
    ensures { result ≡ length (decimal n) }
{
    let mut rest = n;
    let mut k = 0;
    while 10000 <= rest {
        rest /= 10000;
        k += 4;
    }
    if rest < 10 {
        k + 1
    } else if rest < 100 {
        k + 2
    } else if rest < 1000 {
        k + 3
    } else {
        k + 4
    }
}

// The k digits of a number, the last ones first: two for each turn, which halves the divisions that wait for each other.
fn store(out: &mut [u8], at: usize, n: u64, k: usize)
    requires { (k ≡ length (decimal n)) × (at + k ≤ length out.old) }
    ensures { out.new ≡ sets out.old at (decimal n) }
{
    let mut rest = n;
    let mut end = at + k;
    while 100 <= rest {
        end -= 2;
        store_pair(out, end, rest % 100);
        rest /= 100;
    }
    if rest < 10 {
        out[at] = digit(rest);
    } else {
        store_pair(out, at, rest);
    }
}

// The two digits of a number below 100.
fn store_pair(out: &mut [u8], at: usize, v: u64)
    requires { (at + 1 < length out.old) × (v < 100) }
    ensures { out.new ≡ sets out.old at (digitOf (v / 10) ∷ digitOf (v % 10) ∷ []) }
{
    out[at] = digit(v / 10);
    out[at + 1] = digit(v % 10);
}

// Bytes in hex; answers where they end.
fn store_all(out: &mut [u8], at: usize, bytes: &[u8]) -> usize
    requires { at + 3 * length bytes.now ≤ length out.old }
    ensures { Puts at (hexOf bytes.now) out.old out.new result
        × (result ≡ at + 3 * length bytes.now) × Hex bytes.now (hexOf bytes.now) }
{
    let mut end = at;
    for b in bytes {
        store_hex(out, end, *b);
        end += 3;
    }
    end
}

// A byte in hex, behind a blank.
fn store_hex(out: &mut [u8], at: usize, b: u8)
    requires { at + 2 < length out.old }
    ensures { out.new ≡ sets out.old at (blank ∷ digitOf (b / 16) ∷ digitOf (b % 16) ∷ []) }
{
    out[at] = 32;
    out[at + 1] = digit((b / 16) as u64);
    out[at + 2] = digit((b % 16) as u64);
}

// The digit of a number below sixteen.
fn digit(d: u64) -> u8
    requires { d < 16 }
    ensures { result ≡ digitOf d }
{
    if d < 10 { 48 + d as u8 } else { 55 + d as u8 }
}
