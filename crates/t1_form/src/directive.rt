// Directives.

#[derive(Clone, Copy, Drop)]
pub enum Width {
    Byte,
    Half,
    Word,
    Xword,
}

#[derive(Clone, Copy, Drop)]
pub enum Directive {
    Org,
    Skip,
    Align,
    Numbers(Width),
    Text { zero: bool },
    Section,
    Global,
}
