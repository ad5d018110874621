ghost use Rattle.std.specs.Prelude.{◌≡◌, ◌+◌, IfOk};

use lmn_base::NoMemory;

/// The same number, if it has at most 32 bits. So many rows would stand in no memory where it has more.
pub fn narrow(number: usize) -> Result<u32, NoMemory>
    ensures { IfOk result (λ narrow. narrow ≡ number) }
{
    if number < 1 << 32 {
        Ok(number as u32)
    } else {
        Err(NoMemory)
    }
}

/// A number of at most 8 bits.
pub(crate) fn narrow_arity(number: usize) -> Result<u8, NoMemory>
    ensures { IfOk result (λ narrow. narrow ≡ number) }
{
    if number < 256 {
        Ok(number as u8)
    } else {
        Err(NoMemory)
    }
}

/// The next number.
pub(crate) fn following(number: usize) -> Result<usize, NoMemory>
    ensures { IfOk result (λ next. next ≡ number + 1) }
{
    if number == usize::MAX {
        return Err(NoMemory);
    }
    Ok(number + 1)
}
