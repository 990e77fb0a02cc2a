// Bytes cut in two at the first of a given byte.
ghost use Rattle.std.specs.Prelude.{◌≡◌};
ghost use Rattle.text.specs.Cuts.{has, front, behind};

#[derive(Clone, Copy)]
pub struct Cut<'a> {
    // whether there is a `mark`
    pub found: bool,
    // what stands ahead of the first, all where there is none
    pub front: &'a [u8],
    // what stands behind it
    pub behind: &'a [u8],
}

// The bytes cut in two at the first `mark`.
pub fn cut_at(bytes: &[u8], mark: u8) -> Cut<'_>
    ensures found { result.found ≡ has mark bytes.now }
    ensures front { result.front.now ≡ front mark bytes.now }
    ensures behind { result.behind.now ≡ behind mark bytes.now }
{
    match bytes.iter().position(|byte| *byte == mark) {
        Some(at) => Cut {
            found: true,
            front: &bytes[..at],
            behind: &bytes[at + 1..],
        },
        None => Cut {
            found: false,
            front: bytes,
            behind: &[],
        },
    }
}
