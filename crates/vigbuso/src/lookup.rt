// The class of a size. No number of bytes is refused.
ghost use Rattle.classes.specs.Lookup.{size_class};
ghost use Rattle.vigbuso.specs.Sizes.{SizeEnds};

use classes::Sized;
use words::Word;

// Returns the kind of word that such blocks have, none for a size that is too large.
#[unsafe(no_mangle)]
pub extern "C" fn vigbuso_size_class(size: u64, class: &mut u32) -> u32
    ensures { SizeEnds (size_class size) result class.old class.new }
{
    match classes::size_class(size) {
        Sized::Small(c) => {
            *class = c;
            Word::SMALL
        }
        Sized::Medium(c) => {
            *class = c;
            Word::MEDIUM
        }
        Sized::TooLarge => Word::NONE,
    }
}
