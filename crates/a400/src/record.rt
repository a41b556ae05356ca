// The register record written to lent words.
ghost use Rattle.std.specs.Prelude.{◌≡◌, length};
ghost use Rattle.acts.specs.Record.{words_of, record_words};

use acts::record::Registers;

pub(crate) fn write_record(r: Registers, words: &mut [u16])
    requires { length words.old ≡ record_words }
    ensures { words.new ≡ words_of r }
{
    words.copy_from_slice(&r.to_words());
}
