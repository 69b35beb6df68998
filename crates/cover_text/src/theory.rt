//! That what is printed is read back, as functions whose contracts state it.

ghost use Rattle.cover_text.specs.Outputs.{OutputsAreRead};
ghost use Rattle.cover_text.specs.Written.{SectionsAreRead, TextsAreRead};

/// What `push_cover` appends is read as the cover that it was given, where the bounds are none or from -2^62 to 2^62: by itself,
/// and by `read_cover` after every head and instance.
pub fn pushed_is_read()
    ensures sections { SectionsAreRead }
    ensures texts { TextsAreRead }
{}

/// A whole output that is printed (a report, perhaps its counts, the lines of the cover, the instance, and the sections) is read by
/// `read_cover` as what was printed.
pub fn outputs_are_read()
    ensures { OutputsAreRead }
{}
