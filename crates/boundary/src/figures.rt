ghost use Rattle.std.specs.Prelude.{◌≡◌};
ghost use Rattle.script.specs.Scripts.{meaning};
ghost use Rattle.script.specs.Text.{reading};
ghost use Rattle.boundary.specs.Figures.{number_read, figures_read, counted};

use script::Script;

/// How many lines and starting contents a script has; or, where its text is refused, at which text line.
#[repr(C)]
#[derive(Clone, Copy, Debug, PartialEq, Eq)]
pub struct Figures {
    pub lines: usize,
    pub haves: usize,
    pub refused_at: usize,
}

/// The figures of a script that was read.
fn counted(script: &Script) -> Figures
    ensures { result ≡ counted (meaning script.now) }
{
    Figures {
        lines: script.commands().len(),
        haves: script.haves(),
        refused_at: 0,
    }
}

/// Reads a script: answers 0 and tells its figures; or answers the number of the refusal, and tells its text line.
#[unsafe(no_mangle)]
pub extern "C" fn boundary_script(text: &[u8], figures: &mut Figures) -> u8
    ensures number { result ≡ number_read (reading text.now) }
    ensures figures { figures.new ≡ figures_read (reading text.now) }
{
    let mut script = Script::new();
    match script.read(text) {
        Ok(()) => {
            *figures = counted(&script);
            0
        }
        Err(refused) => {
            *figures = Figures {
                lines: 0,
                haves: 0,
                refused_at: refused.line,
            };
            refused.refusal.number()
        }
    }
}
