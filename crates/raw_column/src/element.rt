//! One element's bytes. Sizes that a machine's words have are moved as words, and the others as runs of bytes.
ghost use Rattle.std.specs.Prelude.{◌≡◌, length, replicate};

/// Overwrites `to` with `from`.
#[inline(always)]
pub(crate) fn copy(to: &mut [u8], from: &[u8])
    requires { length to.old ≡ length from.now }
    ensures { to.new ≡ from.now }
{
    match from.len() {
        1 => copy_word::<1>(to, from),
        2 => copy_word::<2>(to, from),
        4 => copy_word::<4>(to, from),
        8 => copy_word::<8>(to, from),
        16 => copy_word::<16>(to, from),
        _ => to.copy_from_slice(from),
    }
}

/// Overwrites `to` with zeros.
#[inline(always)]
pub(crate) fn clear(to: &mut [u8])
    ensures { to.new ≡ replicate (length to.old) 0 }
{
    match to.len() {
        1 => clear_word::<1>(to),
        2 => clear_word::<2>(to),
        4 => clear_word::<4>(to),
        8 => clear_word::<8>(to),
        16 => clear_word::<16>(to),
        _ => to.fill(0),
    }
}

#[inline(always)]
fn copy_word<const N: usize>(to: &mut [u8], from: &[u8])
    requires to { length to.old ≡ N }
    requires from { length from.now ≡ N }
    ensures { to.new ≡ from.now }
{
    if let Some((word, _)) = from.split_first_chunk::<N>()
        && let Some(place) = to.first_chunk_mut::<N>()
    {
        *place = *word;
    }
}

#[inline(always)]
fn clear_word<const N: usize>(to: &mut [u8])
    requires { length to.old ≡ N }
    ensures { to.new ≡ replicate N 0 }
{
    let zeros = [0; N];
    if let Some(place) = to.first_chunk_mut::<N>() {
        *place = zeros;
    }
}
