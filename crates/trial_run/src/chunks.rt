//! Chunks of equal size.

ghost use Rattle.std.specs.Prelude.{◌≡◌, ◌≤◌, ◌<◌, ◌+◌, ◌*◌, length};
ghost use Rattle.trial_run.specs.Chunks.{chunk_of};

/// The chunk of this number, from 0; the last ones may be shorter, or empty.
pub(crate) fn chunk_at<T: Sized>(items: &[T], size: usize, number: u32) -> &[T]
    requires few { number < 64 }
    requires small { size ≤ 1000000 }
    ensures chunk { result.now ≡ chunk_of size number items.now }
    ensures short { length result.now ≤ size }
{
    let from = (number as usize * size).min(items.len());
    let (_, rest) = items.split_at(from);
    let (chunk, _) = rest.split_at(size.min(rest.len()));
    chunk
}

/// The size of chunks of which this many hold all items.
pub(crate) fn size_for(count: usize, workers: u32) -> usize
    requires some { 0 < workers }
    ensures enough { count ≤ workers * result }
    ensures small { result ≤ count }
{
    count.div_ceil(workers as usize)
}
