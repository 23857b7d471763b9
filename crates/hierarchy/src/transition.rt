// What a transition exits and enters, by the masks of what is within each mode and of what contains it.
ghost use Rattle.std.specs.Prelude.{◌≡◌, ◌&&◌, ◌<◌, T};
ghost use Rattle.sets.specs.Sets.{set_of};
ghost use Rattle.meaning.specs.Sheet.{n_of, t_of, contains, strictly_contains, meeting};
ghost use Rattle.meaning.specs.Hierarchy.{child_holding, exits, enters};

use super::tree::Tree;
use sets::set::Set;
use sheet::words::{source, target};

impl Tree<'_> {
    // Transition t's own meeting mode.
    pub fn meeting(&self, t: usize) -> usize
        requires { t < t_of self.now.sheet.now }
        ensures { (result ≡ meeting self.now.sheet.now t) × (result < n_of self.now.sheet.now) }
    {
        sheet::hierarchy::meeting(self.sheet, self.containers, t)
    }

    // The child of p that holds m, which p strictly contains: of the modes within p that contain m, the lowest number is the outermost.
    fn child_holding(&self, p: usize, m: usize) -> usize
        requires { (m < n_of self.now.sheet.now) × T (strictly_contains self.now.sheet.now p m) }
        ensures { (result ≡ child_holding self.now.sheet.now p m) × (result < n_of self.now.sheet.now) }
    {
        (self.within[p] & self.containers[m]).lowest()
    }

    // Mode c and the modes within it.
    fn inside(&self, c: usize) -> u32
        requires { c < n_of self.now.sheet.now }
        ensures { result ≡ set_of (n_of self.now.sheet.now) (contains self.now.sheet.now c) }
    {
        self.within[c] | u32::single(c)
    }

    // The modes from c down to m.
    fn path(&self, c: usize, m: usize) -> u32
        requires { (c < n_of self.now.sheet.now) × (m < n_of self.now.sheet.now) }
        ensures { result ≡ set_of (n_of self.now.sheet.now) (λ y.
            contains self.now.sheet.now c y
            && contains self.now.sheet.now y m) }
    {
        self.containers[m] & self.inside(c)
    }

    // The modes that t, whose meeting mode is p, exits if they are active.
    pub fn exited_by(&self, p: usize, t: usize) -> u32
        requires { (t < t_of self.now.sheet.now) × (p ≡ meeting self.now.sheet.now t) }
        ensures { result ≡ exits self.now.sheet.now t }
    {
        self.inside(self.child_holding(p, source(self.sheet, t)))
    }

    // The modes that t, whose meeting mode is p, enters: the path from p's child down to the target, completed.
    pub fn entered_by(&self, p: usize, t: usize) -> u32
        requires { (t < t_of self.now.sheet.now) × (p ≡ meeting self.now.sheet.now t) }
        ensures { result ≡ enters self.now.sheet.now t }
    {
        let b = target(self.sheet, t);
        let c = self.child_holding(p, b);
        self.completed(self.path(c, b), c)
    }
}
