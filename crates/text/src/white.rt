// White space: the Unicode property White_Space.
ghost use Rattle.std.specs.Prelude.{◌≡◌, drop};
ghost use Rattle.text.specs.White.{white_space, among, is_white};

// Is this one of the 25 characters of White_Space? For speed those of ASCII are asked for first.
#[tactic(auto, using(crate::proofs::Tests::steps), unfolding(crate::specs::White::is_white, crate::specs::White::white_space, crate::specs::White::among))]
pub fn is_white(code: u32) -> bool
    ensures { result ≡ is_white code }
{
    if code < 0x80 {
        return matches!(code, 0x9..=0xD | 0x20);
    }
    matches!(
        code,
        0x85 | 0xA0 | 0x1680 | 0x2000..=0x200A | 0x2028 | 0x2029 | 0x202F | 0x205F | 0x3000
    )
}
