// The stored holes.
#![tactic(auto, unfolding(crate::specs::Field::get, crate::specs::Field::put))]

ghost use Rattle.std.specs.Prelude.{◌≡◌};
ghost use Rattle.fields.specs.Field.{hole, word, Has, get, put};
ghost use Rattle.fields.specs.way.Names.{hole_name};

// What a hole's row holds, in the order of its words.
#[derive(Clone, Copy)]
pub enum HoleField {
    Start,
    Pages,
}

impl HoleField {
    #[inline(always)]
    fn word(self, i: u32) -> usize
        ensures { result ≡ word (hole (hole_name self) i) }
    {
        2048 + 2 * (i as usize) + self as usize
    }

    #[inline(always)]
    pub fn get(self, meta: &[u32], i: u32) -> u32
        requires { Has meta.now (hole (hole_name self) i) }
        ensures { result ≡ get meta.now (hole (hole_name self) i) }
    {
        meta[self.word(i)]
    }

    #[inline(always)]
    pub fn set(self, meta: &mut [u32], i: u32, v: u32)
        requires { Has meta.old (hole (hole_name self) i) }
        ensures { meta.new ≡ put meta.old (hole (hole_name self) i) v }
    {
        let at = self.word(i);
        meta[at] = v;
    }
}
