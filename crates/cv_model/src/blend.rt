//! Blend modes.

/// How a layer's colour is blended onto what lies below it.
///
/// Source: the blend modes of W3C Compositing and Blending Level 1 for channels, without soft-light.
/// `Addition` is the operator that this text calls `lighter`.
#[derive(Clone, Copy, Debug, PartialEq, Eq)]
pub enum Blend {
    /// `normal`: the source's channel, whatever lies below it.
    Normal,
    /// `multiply`: the product, which darkens.
    Multiply,
    /// `screen`: the complement of the product of the complements, which lightens.
    Screen,
    /// `overlay`: `hard-light` with source and backdrop exchanged.
    Overlay,
    /// `darken`: the lesser channel.
    Darken,
    /// `lighten`: the greater channel.
    Lighten,
    /// `color-dodge`: the backdrop, brightened by the source.
    ColorDodge,
    /// `color-burn`: the backdrop, darkened by the source.
    ColorBurn,
    /// `hard-light`: multiply or screen, by the source.
    HardLight,
    /// `difference`: the greater channel less the lesser.
    Difference,
    /// `exclusion`: like `difference`, of lower contrast.
    Exclusion,
    /// `addition`: the sum of the channels.
    Addition,
}
