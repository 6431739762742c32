// The class of a size, for C.
ghost use Rattle.classes.specs.Lookup.{size_class};
ghost use Rattle.vigbuso.specs.Sizes.{SizeEnds};

#[unsafe(no_mangle)]
pub extern "C" fn vigbuso_size_class(size: u64, class: &mut u32) -> u32
    ensures { SizeEnds (size_class size) result class.old class.new }
{
    vigbuso::lookup::vigbuso_size_class(size, class)
}
