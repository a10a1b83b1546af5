//! The line that parts a served input and a text.
ghost use Rattle.std.specs.Prelude.{◌≡◌, ◌≤◌, length};
ghost use Rattle.check_input.specs.RunLine as lines;

// Whether a line begins at a place.
fn begins_line(bytes: &[u8], at: usize) -> bool
    requires { at ≤ length bytes.now }
    ensures { result ≡ lines.begins_line bytes.now at }
{
    at == 0 || bytes[at - 1] == b'\n'
}

// Whether the line `run` stands at a place.
#[tactic(auto, unfolding(crate::specs::RunLine::is_run_line))]
fn is_run_line(bytes: &[u8], at: usize) -> bool
    requires { at ≤ length bytes.now }
    ensures { result ≡ lines.is_run_line bytes.now at }
{
    begins_line(bytes, at) && bytes[at..].starts_with(b"run\n")
}

/// The first place at which the line `run` stands, in linear time.
pub fn run_line(bytes: &[u8]) -> Option<usize>
    ensures { result ≡ lines.run_line bytes.now }
{
    for at in 0..bytes.len() {
        if is_run_line(bytes, at) {
            return Some(at);
        }
    }
    None
}
