// Two classes of code points by Unicode: control characters and noncharacters.
ghost use Rattle.std.specs.Prelude.{◌≡◌};
ghost use Rattle.text.specs.Category.{is_control, is_noncharacter};

pub const LAST_CODE_POINT: u32 = 0x10FFFF;

pub const PLANE_SIZE: u32 = 0x10000;

// Is this one of the 65 control characters?
#[tactic(auto, using(crate::proofs::Tests::steps), unfolding(crate::specs::Category::is_control, crate::specs::Category::controls, crate::specs::White::among))]
pub fn is_control(code: u32) -> bool
    ensures { result ≡ is_control code }
{
    matches!(code, 0x0..=0x1F | 0x7F..=0x9F)
}

// Is this one of the 66 noncharacters?
#[tactic(auto, using(crate::proofs::Tests::steps), unfolding(crate::specs::Category::is_noncharacter))]
pub fn is_noncharacter(code: u32) -> bool
    ensures { result ≡ is_noncharacter code }
{
    matches!(code, 0xFDD0..=0xFDEF) || code <= LAST_CODE_POINT && 0xFFFE <= code % PLANE_SIZE
}
