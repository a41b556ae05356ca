// The instructions that touch no memory: shift/rotate, alter/skip, long shifts, index registers, I/O. Of frequent ones the registers
// are set one by one, for the time it takes: see acts::record. A byte is the cast of a word's part that fits it.
ghost use Rattle.std.specs.Prelude.{◌≡◌, not, ◌&&◌, ◌+◌, ◌*◌, ◌%◌};
ghost use Rattle.word.specs.Words.{bit, weight};
ghost use Rattle.effects.specs.Group.{shift_place, shift_rotated, altered, extend_altered, pair_met, alter_skips, alter_ended, alter_skipped};
ghost use Rattle.effects.specs.Group.{long_rotated, copied_to_index, copied_from_index, exchanged, index_stepped};
ghost use Rattle.effects.specs.Group.{picked, is_halt, panel_act, io_act, PerformsAlone};
ghost use Rattle.acts.specs.Record.{in_register, with_register, with_o, with_lights, ahead};

use crate::ways::set_flags;
use acts::record::Registers;
use acts::replies::{Refusal, Stop};
use code::codes::{Index, Register};
use code::instructions::{Alter, AlterSkip, InputOutput, IoOperation, ShiftRotate};
use maps::pages::is_protecting;
use word::bits::complement;
use word::long::{LongShift, long_shift};
use word::shifts::{ShiftCode, Shifted, pass, shift};
use word::sums::increment;

fn low_bit(w: u16) -> bool
    ensures { result ≡ bit 0 w }
{
    w % 2 == 1
}

fn high_bit(w: u16) -> bool
    ensures { result ≡ bit 15 w }
{
    w / 0o100000 % 2 == 1
}

// One of the two shifts, enabled or not.
pub fn shift_place(enabled: bool, code: ShiftCode, w: u16, e: bool) -> Shifted
    ensures { result ≡ shift_place enabled code w e }
{
    if enabled {
        shift(code, w, e)
    } else {
        pass(code, w, e)
    }
}

#[tactic(auto, unfolding(crate::specs::Group::shift_rotated))]
pub fn shift_rotate(i: ShiftRotate, r: Registers) -> Registers
    ensures { result ≡ shift_rotated i r }
{
    let t = shift_place(i.enabled1, i.shift1, r.register(i.register), r.e);
    let u = shift_place(i.enabled2, i.shift2, t.word, !i.cle & t.e);
    let skip = i.sla & !low_bit(t.word);
    let mut s = r.with_register(i.register, u.word);
    s.e = u.e;
    s.skipping(1, skip)
}

pub fn alter_word(alter: Alter, w: u16) -> u16
    ensures { result ≡ altered alter w }
{
    match alter {
        Alter::Keep => w,
        Alter::Clear => 0,
        Alter::Complement => complement(w),
        Alter::Ones => 0o177777,
    }
}

pub fn alter_extend(alter: Alter, e: bool) -> bool
    ensures { result ≡ extend_altered alter e }
{
    match alter {
        Alter::Keep => e,
        Alter::Clear => false,
        Alter::Complement => !e,
        Alter::Ones => true,
    }
}

// SSA and SLA reversed, where bit 15 is `minus` and bit 0 `odd`.
fn pair_met(ssa: bool, sla: bool, minus: bool, odd: bool) -> bool
    ensures { result ≡ pair_met ssa sla minus odd }
{
    if ssa & sla {
        minus & odd
    } else {
        ssa & minus | sla & odd
    }
}

// Whether a condition is met, of E as given, the word before INA and the word after it.
#[tactic(auto, unfolding(crate::specs::Group::alter_skips))]
pub fn is_met(i: AlterSkip, e: bool, w: u16, u: u16) -> bool
    ensures { result ≡ alter_skips i e w u }
{
    let minus = high_bit(w);
    let odd = low_bit(w);
    if i.rss {
        let pair = pair_met(i.ssa, i.sla, minus, odd);
        return i.sez & e | pair | i.sza & (u != 0) | !(i.sez | i.ssa | i.sla | i.sza);
    }
    i.sez & !e | i.ssa & !minus | i.sla & !odd | i.sza & (u == 0)
}

// The rest, once A or B is to be w and E is to be e: the skip, INA and P.
#[tactic(auto, unfolding(crate::specs::Group::alter_ended))]
fn end_alter(i: AlterSkip, w: u16, e: bool, r: Registers) -> Registers
    ensures { result ≡ alter_ended i w e r }
{
    let mut s = r;
    s.e = e;
    let mut u = w;
    if i.ina {
        let t = increment(w);
        s = set_flags(t, s);
        u = t.word;
    }
    let skip = is_met(i, r.e, w, u);
    s.with_register(i.register, u).skipping(1, skip)
}

#[tactic(auto, unfolding(crate::specs::Group::alter_skipped))]
pub fn alter_skip(i: AlterSkip, r: Registers) -> Registers
    ensures { result ≡ alter_skipped i r }
{
    let w = alter_word(i.alter, r.register(i.register));
    let e = alter_extend(i.extend, r.e);
    end_alter(i, w, e, r)
}

#[tactic(auto, unfolding(crate::specs::Group::long_rotated))]
pub fn long_rotate(kind: LongShift, n: u16, r: Registers) -> Registers
    ensures { result ≡ long_rotated kind n r }
{
    let t = long_shift(kind, n, r.b, r.a, r.o);
    let mut s = r;
    s.a = t.a;
    s.b = t.b;
    s.o = t.o;
    s.ahead(1)
}

// CAX and its kin.
pub fn copy_to_index(g: Register, i: Index, r: Registers) -> Registers
    ensures { result ≡ copied_to_index g i r }
{
    r.with_index(i, r.register(g)).ahead(1)
}

// CXA and its kin.
pub fn copy_from_index(g: Register, i: Index, r: Registers) -> Registers
    ensures { result ≡ copied_from_index g i r }
{
    r.with_register(g, r.index(i)).ahead(1)
}

// XAX and its kin.
pub fn exchange(g: Register, i: Index, r: Registers) -> Registers
    ensures { result ≡ exchanged g i r }
{
    r.with_register(g, r.index(i))
        .with_index(i, r.register(g))
        .ahead(1)
}

// ISX, DSX, ISY, DSY, whose register becomes w.
pub fn step_index(i: Index, w: u16, r: Registers) -> Registers
    ensures { result ≡ index_stepped i w r }
{
    r.with_index(i, w).skipping(1, w == 0)
}

fn register_of(bit11: bool) -> Register
    ensures { result ≡ picked bit11 }
{
    if bit11 { Register::B } else { Register::A }
}

fn is_halt(io: IoOperation) -> bool
    ensures { result ≡ is_halt io }
{
    matches!(io, IoOperation::Hlt)
}

// STF and CLF 01.
fn set_overflow(o: bool, r: Registers) -> Registers
    ensures { result ≡ ahead 1 (with_o r o) }
{
    let mut s = r;
    s.o = o;
    s.ahead(1)
}

// SFC and SFS 01: bit 9 clears O afterwards.
fn test_overflow(skip: bool, bit9: bool, r: Registers) -> Registers
    ensures { result ≡ ahead (1 + weight skip) (with_o r (r.o && not bit9)) }
{
    let mut s = r;
    s.o = r.o & !bit9;
    s.skipping(1, skip)
}

// LIA 01: the switches in the high byte.
fn take_switches(g: Register, r: Registers) -> Registers
    ensures { result ≡ ahead 1 (with_register g r (r.switches * 256)) }
{
    r.with_register(g, u16::from(r.switches) * 256).ahead(1)
}

// OTA 01: the low byte in the lights.
fn put_lights(g: Register, r: Registers) -> Registers
    ensures { result ≡ ahead 1 (with_lights r (in_register g r % 256)) }
{
    let mut s = r;
    s.lights = (r.register(g) % 256) as u8;
    s.ahead(1)
}

// Select code 01.
fn panel(io: InputOutput, r: Registers) -> Result<Registers, Stop>
    ensures { PerformsAlone (panel_act io) r result }
{
    match io.operation {
        IoOperation::Flag => Ok(set_overflow(!io.bit9, r)),
        IoOperation::Sfc => Ok(test_overflow(!r.o, io.bit9, r)),
        IoOperation::Sfs => Ok(test_overflow(r.o, io.bit9, r)),
        IoOperation::Lia => {
            if io.bit9 {
                return Err(Stop::Refused(Refusal::InputOutput));
            }
            Ok(take_switches(register_of(io.bit11), r))
        }
        IoOperation::Ota => {
            if io.bit9 {
                return Err(Stop::Refused(Refusal::InputOutput));
            }
            Ok(put_lights(register_of(io.bit11), r))
        }
        IoOperation::Hlt | IoOperation::Mia | IoOperation::Control => {
            Err(Stop::Refused(Refusal::InputOutput))
        }
    }
}

// With protection on, a HLT is a violation, and so is every other select code.
pub fn input_output(io: InputOutput, r: Registers) -> Result<Registers, Stop>
    ensures { PerformsAlone (io_act io r) r result }
{
    if is_protecting(r.wmap) & (is_halt(io.operation) | (io.select != 1)) {
        return Err(Stop::Violation);
    }
    if io.select == 1 {
        return panel(io, r);
    }
    Err(Stop::Refused(Refusal::InputOutput))
}
