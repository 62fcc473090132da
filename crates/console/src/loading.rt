// Pattern files.
ghost use Rattle.pattern.specs.Files.{decoded};
ghost use Rattle.console.specs.Loading.{Gives};

use fault::Fault;
use pattern::Pattern;

// The pattern of a file's bytes.
pub fn pattern_of(file: &[u8]) -> Result<Pattern, Fault>
    ensures { Gives (decoded file.now) result }
{
    let mut pattern = Pattern::new();
    pattern.load(file)?;
    Ok(pattern)
}
