/// The names of what a command takes.
pub(crate) struct CommandSyntax {
    /// Its positional words, in order.
    pub(crate) positional: &'static [&'static str],
    /// Its options with a value.
    pub(crate) valued: &'static [&'static str],
    /// Its options without one.
    pub(crate) flags: &'static [&'static str],
}

pub(crate) const SOLVE: CommandSyntax = CommandSyntax {
    positional: &["model"],
    valued: &[
        "width",
        "workers",
        "parts",
        "budget",
        "cutset",
        "journal",
        "cover-words",
        "within",
        "part",
    ],
    flags: &["cover", "stats"],
};

pub(crate) const RESUME: CommandSyntax = CommandSyntax {
    positional: &["path"],
    valued: &["width", "workers", "parts", "budget", "cutset"],
    flags: &["incumbent", "stats"],
};

pub(crate) const SPLIT: CommandSyntax = CommandSyntax {
    positional: &["path"],
    valued: &["part"],
    flags: &[],
};

pub(crate) const CHECK: CommandSyntax = CommandSyntax {
    positional: &[],
    valued: &[],
    flags: &[],
};

pub(crate) const JOIN: CommandSyntax = CommandSyntax {
    positional: &[],
    valued: &["journal"],
    flags: &[],
};

pub(crate) const DIGEST: CommandSyntax = CommandSyntax {
    positional: &["model"],
    valued: &[],
    flags: &[],
};

pub(crate) const GENERATE: CommandSyntax = CommandSyntax {
    positional: &["model", "n", "seed"],
    valued: &[],
    flags: &["solve"],
};
