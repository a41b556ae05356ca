// The listing of an image: two lines of text.
ghost use Rattle.std.specs.Prelude.{◌≡◌, [], ◌∷◌, ◌++◌, Some};
ghost use Rattle.std.specs.Fmt.InlineText.{inline_text};
ghost use Rattle.octal.specs.Digits.{octal_digits, bit_digit};
ghost use Rattle.list.specs.Image.{listed};
ghost use Rattle.list.specs.Text.{Appends};
ghost use Rattle.list.specs.Line.{header, spaced, line_of, listing};

use crate::image::run_image;
use crate::text::{Text, with_bytes, with_decimal, with_str};
use acts::replies::Ran;
use octal::{bit_digit, word_digits};
use std::fmt;

// A run, which prints as its listing.
#[derive(Clone, Copy)]
pub struct Listing(pub Ran);

impl Listing {
    // Its 80 bytes are enough for every listing.
    pub fn text(self) -> Text
        ensures { inline_text result ≡ header ++ line_of self.0 }
    {
        let headed = with_str(Text::new(), "answer steps P A B E O\n");
        with_line(headed, self.0)
    }
}

impl fmt::Display for Listing {
    ghost output = { λ l. Some (header ++ line_of l.0) };

    fn fmt<W: fmt::Write>(&self, f: &mut fmt::Formatter<W>) -> fmt::Result {
        f.write_str(self.text().as_str())
    }
}

fn with_word(t: Text, w: u16) -> Text
    ensures { Appends t (spaced (octal_digits w)) result }
{
    let digits = word_digits(w);
    with_bytes(with_str(t, " "), &digits)
}

fn with_bit(t: Text, b: bool) -> Text
    ensures { Appends t (spaced (bit_digit b ∷ [])) result }
{
    let digit = [bit_digit(b)];
    with_bytes(with_str(t, " "), &digit)
}

fn with_line(t: Text, s: Ran) -> Text
    ensures { Appends t (line_of s) result }
{
    let r = s.registers;
    let answered = with_decimal(t, u32::from(s.reply));
    let counted = with_decimal(with_str(answered, " "), s.count);
    let words = with_word(with_word(with_word(counted, r.p), r.a), r.b);
    let bits = with_bit(with_bit(words, r.e), r.o);
    with_str(bits, "\n")
}

#[tactic(auto, unfolding(crate::specs::Line::listing))]
pub fn list_image(bytes: &[u8]) -> Listing
    ensures run { result.0 ≡ listed bytes.now }
    ensures text { ⟦<Listing as fmt::Display>⟧.output result ≡ Some (listing bytes.now) }
    ensures bytes { header ++ line_of result.0 ≡ listing bytes.now }
{
    Listing(run_image(bytes))
}
