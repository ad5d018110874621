//! The label of an atom, and the number by which its cell tells it.
ghost use Rattle.std.specs.Prelude.{◌≡◌, ◌+◌, ◌*◌, ◌<◌, ◌^◌, Bool};
ghost use Rattle.lmn_base.specs.declared.functor.Label.TheVariants.{Int};
ghost use Rattle.lmn_web.specs.Webs.{label_class};
ghost use Rattle.lmn_store_web.specs.Labels.{IsLabelNumber, IsNarrow, integer_by, label_by, label_number, own_of};

use lmn_base::Label;

// A half has so many values.
const HALF: u128 = 0x1_0000_0000_0000_0000;

// So many classes names have. Those of integers are before them.
const CLASSES: u64 = 32_768;

// So many have integers that are filed by value: a prime, so that multiples of a power of two are of many classes.
const VALUES: u64 = 32_749;

/// The number of a label. Its lower half is the name, or the integer by its bits; its upper half is the class: of an integer 0,
/// or where integers are filed by value what is left of its bits by a prime, and of a name one of as many others.
pub fn number_of(label: Label, by_value: bool) -> u128
    ensures number { result ≡ label_number by_value label }
    ensures range { IsLabelNumber by_value result }
    ensures class { label_class result < 2 ^ 16 }
    ensures back { label_by result ≡ label }
{
    label_is_narrow(label);
    match label {
        Label::Name(n) => number_with(CLASSES + n as u64 % CLASSES, n as u64),
        Label::Int(z) => {
            let bits = bits_of(z);
            if by_value {
                number_with(bits % VALUES, bits)
            } else {
                bits as u128
            }
        }
    }
}

// A class and what is the label's own.
fn number_with(class: u64, own: u64) -> u128
    requires { class < 2 ^ 16 }
    ensures { result ≡ class * 2 ^ 64 + own }
{
    class as u128 * HALF + own as u128
}

/// A label has a name of 32 bits, or an integer of 64.
fn label_is_narrow(label: Label)
    ensures { IsNarrow label }
{
    match label {
        Label::Name(_) => {}
        Label::Int(z) => integer_is_narrow(z),
    }
}

/// An integer has 64 bits.
fn integer_is_narrow(z: i64)
    ensures { IsNarrow (Int z) }
{}

/// An integer by its bits.
fn bits_of(z: i64) -> u64
    ensures { result ≡ own_of (Int z) }
{
    if z >= 0 {
        z as u64
    } else {
        u64::MAX - (-(z + 1)) as u64
    }
}

/// The label of a number.
pub fn label_of(n: u128) -> Label
    requires { (by_value : Bool) × IsLabelNumber by_value n }
    ensures { result ≡ label_by n }
{
    let own = (n % HALF) as u64;
    if ((n / HALF) as u64) < CLASSES {
        Label::Int(integer_of(own))
    } else {
        Label::Name(own as u32)
    }
}

// The integer of some bits.
fn integer_of(n: u64) -> i64
    ensures { Int result ≡ integer_by n }
{
    if n < 0x8000_0000_0000_0000 {
        n as i64
    } else {
        -((u64::MAX - n) as i64) - 1
    }
}
