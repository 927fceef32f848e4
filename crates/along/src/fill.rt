// A part of a lent column that is counted up.
ghost use Rattle.std.specs.Prelude.{◌≡◌, ◌+◌, ◌≤◌, length};
ghost use Rattle.along.specs.Rising.{rising};

// It gets the numbers first, first + 1 and so on. An empty part may come behind the largest number there is, so first
// is wider than they are. Enumerated, the loop knows a place by its number; a zip with `first..` would be no plainer,
// since its invariant tells of two iterators.
pub fn count_up(part: &mut [u32], first: usize)
    requires { first + length part.old ≤ 4294967296 }
    ensures { part.new ≡ rising (length part.old) first }
{
    for (x, number) in part.iter_mut().enumerate() {
        *number = (first + x) as u32;
    }
}
