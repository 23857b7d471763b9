// A sheet past 1 to 6 with its mode tree as masks, one word for each mode.
ghost use Rattle.std.specs.Prelude.{◌≡◌};
ghost use Rattle.meaning.specs.Check.{sheet_refusal};
ghost use Rattle.sheet.specs.Masks.{Children, Containers, Withins};
ghost use Rattle.hierarchy.specs.Masks.{Children-prop, Containers-prop, Withins-prop};

// The children of each mode, the modes within it and those that contain it. The masks are lent: a tree that owns them is copied where it
// is returned.
#[derive(Clone, Copy)]
pub struct Tree<'a> {
    pub sheet: &'a [u32],
    pub(crate) children: &'a [u32; 32],
    pub(crate) within: &'a [u32; 32],
    pub(crate) containers: &'a [u32; 32],
    pub ghost passes: { sheet_refusal sheet.now ≡ 0 },
    pub ghost has_children: { Children sheet.now children.now } by { Children-prop sheet.now children.now },
    pub ghost has_within: { Withins sheet.now within.now } by { Withins-prop sheet.now within.now },
    pub ghost has_containers: { Containers sheet.now containers.now } by { Containers-prop sheet.now containers.now },
}

impl<'a> Tree<'a> {
    pub fn of(
        sheet: &'a [u32],
        children: &'a [u32; 32],
        within: &'a [u32; 32],
        containers: &'a [u32; 32],
    ) -> Tree<'a>
        requires { (sheet_refusal sheet.now ≡ 0)
            × Children sheet.now children.now
            × Withins sheet.now within.now
            × Containers sheet.now containers.now }
        ensures { result.sheet.now ≡ sheet.now }
    {
        Tree {
            sheet,
            children,
            within,
            containers,
        }
    }
}
