/// How the two reflections of a Friedel pair, h and -h, are taken.
#[derive(Clone, Copy, PartialEq, Eq, Debug, Drop)]
pub enum Pairs {
    /// As equivalent, by Friedel's law.
    Friedel,
    /// Each by itself, since anomalous scattering tells them apart.
    Apart,
}
