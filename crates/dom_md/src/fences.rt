//! Fences of backticks around code.

ghost use Rattle.std.specs.Prelude.{◌≡◌, ◌+◌, ◌<◌, ◌≤◌, ◌++◌, ℕ, List, length, max};
ghost use Rattle.dom_md.specs.Fences.{longest_run, ticks};

/// Returns how many backticks a fence around the content needs: one more than the longest run of
/// backticks in it, and at least `least`.
pub fn fence_len(content: &str, least: usize) -> usize
    ensures value { result ≡ max least (longest_run content.now + 1) }
    ensures longer { (front text : List ℕ) → content.now ≡ front ++ text → ticks text < result }
{
    least.max(longest_run(content.as_bytes()) + 1)
}

/// Returns the length of the longest run of backticks.
fn longest_run(content: &[u8]) -> usize
    ensures value { result ≡ longest_run content.now }
    ensures within { result ≤ length content.now }
{
    let mut longest = 0;
    let mut current = 0;
    for byte in content {
        current = if *byte == b'`' { current + 1 } else { 0 };
        if longest < current {
            longest = current;
        }
    }
    longest
}
