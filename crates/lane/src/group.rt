// Shift/rotate and alter/skip of A or B, by the parts that the general step has. The register is a constant where they are called, and
// they are inlined there, so that the machine code of each register is its own. A skip is a branch here, and a sum in the general step.
ghost use Rattle.std.specs.Prelude.{◌≡◌, ◌/◌, ◌%◌};
ghost use Rattle.code.specs.Instructions.{register_at, shift_fields, alter_fields};
ghost use Rattle.effects.specs.Group.{shift_rotated, alter_skipped};

use acts::record::Registers;
use code::codes::Register;
use code::instructions::{alter_skip_of, shift_rotate_of};
use effects::group::{alter_extend, alter_word, is_met, shift_place};
use effects::ways::set_flags;
use word::sums::increment;

#[inline(always)]
pub(crate) fn shift(g: Register, word: u16, r: Registers) -> Registers
    requires { g ≡ register_at (word / 0o4000 % 2) }
    ensures { result ≡ shift_rotated (shift_fields word) r }
{
    let i = shift_rotate_of(word);
    let t = shift_place(i.enabled1, i.shift1, r.register(g), r.e);
    let u = shift_place(i.enabled2, i.shift2, t.word, !i.cle & t.e);
    let mut s = r.with_register(g, u.word);
    s.e = u.e;
    if i.sla & (t.word % 2 == 0) {
        s.ahead(2)
    } else {
        s.ahead(1)
    }
}

#[inline(always)]
pub(crate) fn alter(g: Register, word: u16, r: Registers) -> Registers
    requires { g ≡ register_at (word / 0o4000 % 2) }
    ensures { result ≡ alter_skipped (alter_fields word) r }
{
    let i = alter_skip_of(word);
    let w = alter_word(i.alter, r.register(g));
    let e = alter_extend(i.extend, r.e);
    let mut s = Registers { e, ..r };
    let mut u = w;
    if i.ina {
        let t = increment(w);
        s = set_flags(t, s);
        u = t.word;
    }
    s = s.with_register(g, u);
    if is_met(i, r.e, w, u) {
        s.ahead(2)
    } else {
        s.ahead(1)
    }
}
