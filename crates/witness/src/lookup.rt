// The class of a size.
ghost use Rattle.demands.specs.Refusals.{SizeAnswer};

pub fn size_class(size: u64, class: &mut u32) -> u32
    ensures { SizeAnswer size result class.old class.new }
{
    vigbuso::lookup::vigbuso_size_class(size, class)
}
