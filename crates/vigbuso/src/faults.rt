// The numbers that a call tests first, on any book and any numbers.
ghost use Rattle.std.specs.Prelude.{◌≡◌, IfOk};
ghost use Rattle.words.specs.Refusal.{code_of};
ghost use Rattle.fields.specs.Field.{arena, size, get};
ghost use Rattle.vigbuso.specs.Faults.{call_fault, class_fault, admits};

use classes::CLASS_COUNT;
use fields::fault::arena_size;
use words::Host;
use words::refusal::Refusal;

// Numbers 1 to 3; where none applies, the arena's length.
#[tactic(auto, unfolding(crate::specs::Faults::call_fault))]
pub fn check_call(meta: &[u32], host: u32) -> Result<u32, Refusal>
    ensures fault { code_of result ≡ call_fault meta.now host }
    ensures value { IfOk result (λ n. n ≡ get meta.now (arena size)) }
{
    let size = arena_size(meta)?;
    if Host::of(host).is_bad() {
        return Err(Refusal::HostWord);
    }
    Ok(size)
}

// Numbers 1 to 4, for a class among `many`; where none applies, the arena's length.
#[tactic(auto, unfolding(crate::specs::Faults::class_fault))]
pub fn check_class(meta: &[u32], host: u32, many: u32, class: u32) -> Result<u32, Refusal>
    ensures fault { code_of result ≡ class_fault meta.now host many class }
    ensures value { IfOk result (λ n. n ≡ get meta.now (arena size)) }
{
    let size = check_call(meta, host)?;
    if many <= class {
        return Err(Refusal::Class);
    }
    Ok(size)
}

// Neither 1 nor 2, and one of the 76 classes.
pub fn is_admitted(meta: &[u32], class: u32) -> bool
    ensures { result ≡ admits meta.now class }
{
    match arena_size(meta) {
        Ok(_) => class < CLASS_COUNT,
        Err(_) => false,
    }
}
