//! What the draw of a header says of its object.
ghost use Rattle.std.specs.Prelude.{◌≡◌, ◌≤◌, ◌<◌, ◌^◌};
ghost use Rattle.image_reader.specs.Made.{refs, data_words, body, header};

/// How many references an object has, by the draw of its header: 0 to 3.
#[inline]
pub fn refs(shape: u32) -> u32
    ensures { result ≡ refs shape }
{
    shape % 4
}

/// How many data words an object has, by the draw of its header: at most one.
#[inline]
pub fn data_words(shape: u32) -> u32
    ensures { result ≡ data_words shape }
{
    if shape % 4 == 3 { 0 } else { shape / 4 % 2 }
}

/// How many words an object has behind its header: at most 3.
#[inline]
pub fn body(shape: u32) -> u32
    ensures value { result ≡ body shape }
    ensures small { result ≤ 3 }
{
    refs(shape) + data_words(shape)
}

/// The header of an object: its counts, and its number as the tag.
#[inline]
pub fn header(object: u32, shape: u32) -> u64
    ensures { result ≡ header object shape }
{
    u64::from(refs(shape))
        + (1 << 16) * u64::from(data_words(shape))
        + (1 << 32) * u64::from(object)
}
