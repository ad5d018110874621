//! Pointers to rows.
ghost use Rattle.std.specs.Prelude.{◌≡◌, ◌+◌, ◌%◌, ◌^◌, ◌<◌};
ghost use denote.RawPtr.{null_ptr};
ghost use Rattle.lmn_web_rows.specs.Rows.{place_of, IsStart, IsNear, leads_nowhere};

/// The pointer to a row so many words behind.
pub fn behind(at: *mut u8, count: usize) -> *mut u8
    requires { IsStart at × (count < 2 ^ 18) × (place_of at % 2 ^ 18 + count < 2 ^ 18) }
    ensures { IsStart result × (place_of result ≡ place_of at + count) }
{
    unsafe { at.add(count * 8) }
}

/// The pointer that leads nowhere.
pub fn nowhere() -> *mut u8
    ensures { result ≡ null_ptr }
{
    std::ptr::null_mut()
}

/// Whether a pointer leads nowhere.
pub fn is_nowhere(p: *mut u8) -> bool
    requires { IsNear p }
    ensures { result ≡ leads_nowhere p }
{
    let none: *mut u8 = std::ptr::null_mut();
    p == none
}
