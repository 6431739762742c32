// A class's row: the partial list's head, the empty and the cold store with their counts, and the limits of these.
#![tactic(auto, unfolding(crate::specs::Field::get, crate::specs::Field::put))]

ghost use Rattle.std.specs.Prelude.{◌≡◌};
ghost use Rattle.fields.specs.Field.{class, word, Has, get, put};
ghost use Rattle.fields.specs.way.Names.{class_name};

// What a class's row holds, in the order of its words.
#[derive(Clone, Copy)]
pub enum ClassField {
    Partial,
    Empty,
    EmptyCount,
    Cold,
    ColdCount,
    EmptyLimit,
    ColdLimit,
}

impl ClassField {
    #[inline(always)]
    fn word(self, c: u32) -> usize
        ensures { result ≡ word (class (class_name self) c) }
    {
        160 + 8 * (c as usize) + self as usize
    }

    #[inline(always)]
    pub fn get(self, meta: &[u32], c: u32) -> u32
        requires { Has meta.now (class (class_name self) c) }
        ensures { result ≡ get meta.now (class (class_name self) c) }
    {
        meta[self.word(c)]
    }

    #[inline(always)]
    pub fn set(self, meta: &mut [u32], c: u32, v: u32)
        requires { Has meta.old (class (class_name self) c) }
        ensures { meta.new ≡ put meta.old (class (class_name self) c) v }
    {
        let at = self.word(c);
        meta[at] = v;
    }
}
