// An output with the place where its next byte goes, the lines on paper that were put, and the room up to which bytes may be put, in one of
// two passes. A pass that measures may have more room than the output.
ghost use Rattle.std.specs.Prelude.{◌≤◌, ◌≡◌, length};
ghost use Rattle.printing.specs.declared.output.Pass.TheVariants.{Write};

// Whether bytes are only counted or written.
#[derive(Clone, Copy, Debug, PartialEq, Eq)]
pub enum Pass {
    Measure,
    Write,
}

#[derive(Drop)]
pub struct Output<'a> {
    pub bytes: &'a mut [u8],
    pub at: usize,
    pub lines: usize,
    pub room: usize,
    pub pass: Pass,
    pub ghost inside: { at ≤ room },
    pub ghost counted: { lines ≤ at },
    pub ghost held: { pass ≡ Write → room ≤ length bytes.now },
}
