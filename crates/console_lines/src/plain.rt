ghost use Rattle.std.specs.Prelude.{◌≡◌};

/// A command that is a name alone.
#[derive(Clone, Copy)]
pub enum Plain {
    Help,
    Lay,
    Begin,
    Step,
    Build,
    Save,
    Report,
    Files,
    Pool,
    Log,
    Book,
    Image,
}

impl Plain {
    ghost use Rattle.console_lines.specs.Names.{name, named};

    /// Every such command.
    const ALL: [Plain; 12] = [
        Plain::Help,
        Plain::Lay,
        Plain::Begin,
        Plain::Step,
        Plain::Build,
        Plain::Save,
        Plain::Report,
        Plain::Files,
        Plain::Pool,
        Plain::Log,
        Plain::Book,
        Plain::Image,
    ];

    fn name(self) -> &'static str
        ensures { result.now ≡ name self }
    {
        match self {
            Plain::Help => "help",
            Plain::Lay => "lay",
            Plain::Begin => "begin",
            Plain::Step => "step",
            Plain::Build => "build",
            Plain::Save => "save",
            Plain::Report => "report",
            Plain::Files => "files",
            Plain::Pool => "pool",
            Plain::Log => "log",
            Plain::Book => "book",
            Plain::Image => "image",
        }
    }

    /// The command of a name.
    pub fn named(word: &[u8]) -> Option<Plain>
        ensures { result ≡ named word.now }
    {
        Plain::ALL
            .iter()
            .copied()
            .find(|plain| word == plain.name().as_bytes())
    }
}
