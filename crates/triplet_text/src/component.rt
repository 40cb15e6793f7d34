/// What a term or a sum says: how often each coordinate occurs, and the parts of a cell.
#[derive(Clone, Copy)]
pub struct Component {
    pub x: i32,
    pub y: i32,
    pub z: i32,
    pub parts: i64,
}

impl Component {
    pub const NO_TERMS: Component = Component {
        x: 0,
        y: 0,
        z: 0,
        parts: 0,
    };
}
