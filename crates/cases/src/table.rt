ghost use Rattle.std.specs.Prelude.{◌≤◌};

/// The name of a case and its lines, which are its commands with their answers, if a block of a table is a case: its
/// first line is `# ` and the name.
pub fn case_of(block: &str) -> Option<(&str, &str)> {
    block.strip_prefix("# ")?.split_once('\n')
}

/// The text that a table gives a name, from where the name first stands to the end of the block, or no text.
pub fn text_of<'t>(table: &'t str, name: &str) -> &'t str {
    let (_, given) = table.split_once(name).unwrap_or(("", ""));
    let (text, _) = given.split_once("\n\n").unwrap_or((given, ""));
    text.trim_start()
}

/// The first word of a line, and what follows the space behind it.
pub fn first_word(line: &str) -> (&str, &str) {
    line.split_once(' ').unwrap_or((line, ""))
}

/// The number that a word writes, or 0.
pub fn number(word: &str) -> usize {
    word.parse().unwrap_or(0)
}

/// How much of something the lines of a case lend, where a line says it behind some words, or else as much as is given
/// here, which it never exceeds.
pub fn size(lines: &str, words: &str, most: usize) -> usize
    ensures { result ≤ most }
{
    let (_, said) = lines.split_once(words).unwrap_or(("", ""));
    let (word, _) = said.split_once('\n').unwrap_or((said, ""));
    word.parse().unwrap_or(most).min(most)
}
