// Blocks that are open.
#![tactic(auto)]

ghost use Rattle.std.specs.Prelude.{◌≡◌, [], ◌∷◌, ◌≤◌};
ghost use Rattle.kernel.specs.Reading as Reading;
ghost use Rattle.read_blocks.specs.Blocks.{block, first};

// A block that is open: an if's before and after its else; a for's, with its passes.
#[derive(Clone, Copy, Debug, PartialEq, Eq)]
pub enum Open {
    If,
    Else,
    For(usize),
}

impl Open {
    // One for a for.
    pub fn loops(self) -> usize
        ensures { result ≡ Reading.open_loops (block self ∷ []) }
    {
        match self {
            Open::If | Open::Else => 0,
            Open::For(_) => 1,
        }
    }

    // Those of a for; what holds no loop is passed once.
    pub fn passes(self) -> usize
        ensures { result ≡ Reading.all_passes (block self ∷ []) }
    {
        match self {
            Open::If | Open::Else => 1,
            Open::For(n) => n,
        }
    }
}

// The open blocks, outermost first, at most eight. The loops among them and their passes multiplied are kept beside.
#[derive(Clone, Copy)]
pub struct OpenBlocks {
    pub depth: usize,
    pub loops: usize,
    pub product: usize,
    pub blocks: [Open; 8],
    pub ghost shallow: { depth ≤ 8 },
    pub ghost loops_are: { loops ≡ Reading.open_loops (first blocks depth) },
    pub ghost few_loops: { loops ≤ 4 },
    pub ghost product_is: { product ≡ Reading.all_passes (first blocks depth) },
    pub ghost some_passes: { 1 ≤ product },
    pub ghost few_passes: { product ≤ 65536 },
}
