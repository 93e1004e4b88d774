//! What the header of an object counts, by the format.
ghost use Rattle.std.specs.Prelude.{◌≡◌, ◌<◌, ◌^◌};
ghost use Rattle.image_core.specs.Header.{refs_of, weak_of, plain_of, tag_of, names_of, size_of};

/// How many reference words follow a header.
#[tactic(auto, unfolding(crate::specs::Header::refs_of))]
#[inline(always)]
pub fn refs(header: u64) -> u32
    ensures value { result ≡ refs_of header }
    ensures small { result < 2 ^ 16 }
{
    (header % (1 << 16)) as u32
}

/// How many weak words follow those. Format 1 has none.
#[tactic(auto, unfolding(crate::specs::Header::weak_of))]
#[inline(always)]
pub fn weak(format: u8, header: u64) -> u32
    ensures value { result ≡ weak_of format header }
    ensures small { result < 2 ^ 16 }
{
    if format == 2 {
        (header / (1 << 32) % (1 << 16)) as u32
    } else {
        0
    }
}

/// How many data words follow those.
#[tactic(auto, unfolding(crate::specs::Header::plain_of))]
#[inline(always)]
pub fn plain(header: u64) -> u32
    ensures value { result ≡ plain_of header }
    ensures small { result < 2 ^ 16 }
{
    (header / (1 << 16) % (1 << 16)) as u32
}

/// The tag that an object carries: in format 2 of 16 bits, in format 1 of 32.
#[tactic(auto, unfolding(crate::specs::Header::tag_of))]
#[inline(always)]
pub fn tag(format: u8, header: u64) -> u32
    ensures { result ≡ tag_of format header }
{
    if format == 2 {
        (header / (1 << 48)) as u32
    } else {
        (header / (1 << 32)) as u32
    }
}

/// How many words behind a header name objects: its references, and then its weak ones.
#[inline(always)]
pub fn names(format: u8, header: u64) -> usize
    ensures value { result ≡ names_of format header }
    ensures small { result < 2 ^ 17 }
{
    refs(header) as usize + weak(format, header) as usize
}

/// How many words an object has, its header too.
#[inline(always)]
pub fn size(format: u8, header: u64) -> usize
    ensures value { result ≡ size_of format header }
    ensures small { result < 2 ^ 18 }
{
    1 + names(format, header) + plain(header) as usize
}
