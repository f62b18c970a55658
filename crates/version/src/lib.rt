// The library's version for C, as one number and as text.
//
// specs/Version.antt has the three numbers, and says how they are packed and how they are written. Not modelled: the
// header's own copy, which a program compares with this one.
#![tactic(auto)]

ghost use Rattle.std.specs.Prelude.{◌≡◌};
ghost use Rattle.version.specs.Version.{packed, written};

const MAJOR: u8 = 0;

const MINOR: u8 = 3;

const PATCH: u8 = 0;

// The three numbers as digits with dots between, and zeros behind.
#[repr(C)]
#[derive(Clone, Copy)]
pub struct Text {
    pub text: [u8; 8],
}

#[unsafe(no_mangle)]
pub extern "C" fn zk_version() -> u32
    ensures { result ≡ packed }
{
    65536 * u32::from(MAJOR) + 256 * u32::from(MINOR) + u32::from(PATCH)
}

#[unsafe(no_mangle)]
pub extern "C" fn zk_version_text() -> Text
    ensures { result ≡ written }
{
    Text {
        text: [48 + MAJOR, b'.', 48 + MINOR, b'.', 48 + PATCH, 0, 0, 0],
    }
}
