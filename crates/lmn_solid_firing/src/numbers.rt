//! Numbers.
ghost use Rattle.std.specs.Prelude.{◌≡◌, ◌+◌, IfOk};

use lmn_base::NoMemory;

/// The next number.
///
/// # Errors
///
/// `NoMemory` where it has more than 64 bits.
pub(crate) fn after(number: usize) -> Result<usize, NoMemory>
    ensures { IfOk result (λ next. next ≡ number + 1) }
{
    match number.checked_add(1) {
        Some(next) => Ok(next),
        None => Err(NoMemory),
    }
}

/// The sum of two numbers, in 32 bits.
///
/// # Errors
///
/// `NoMemory` where it has more.
pub(crate) fn sum(left: u64, right: u64) -> Result<u32, NoMemory>
    ensures { IfOk result (λ both. both ≡ left + right) }
{
    match left.checked_add(right) {
        Some(both) => short(both),
        None => Err(NoMemory),
    }
}

/// A number of 32 bits.
///
/// # Errors
///
/// `NoMemory` where it has more.
pub(crate) fn short(number: u64) -> Result<u32, NoMemory>
    ensures { IfOk result (λ same. same ≡ number) }
{
    if number < 1 << 32 {
        Ok(number as u32)
    } else {
        Err(NoMemory)
    }
}
