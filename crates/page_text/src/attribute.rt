//! Attributes.

ghost use Rattle.std.specs.Prelude.{◌≡◌};
ghost use Rattle.page_text.specs.Markup.{key_name};

/// The name of an attribute.
#[derive(Clone, Copy, Debug, PartialEq, Eq, Drop)]
pub enum Key {
    AriaHidden,
    AriaLabel,
    Checked,
    Class,
    Colspan,
    D,
    DataLabel,
    Height,
    Href,
    Id,
    Name,
    Open,
    Overflow,
    PreserveAspectRatio,
    Role,
    Rx,
    Scope,
    TextAnchor,
    Type,
    ViewBox,
    Width,
    X,
    X1,
    X2,
    Y,
    Y1,
    Y2,
}

/// A move of a pen, in a path.
#[derive(Clone, Copy, Debug, PartialEq, Eq, Drop)]
pub enum Move {
    /// To a place, with the pen up.
    To(u64, u64),
    /// To a place, with the pen down.
    Line(u64, u64),
    /// To a place to the left or the right.
    Across(u64),
    /// To a place above or below.
    Down(u64),
    /// Nowhere: a dot.
    Dot,
    /// Back to where the pen came down.
    Back,
}

/// An attribute: what is written in it is a constant of the program or a number.
#[derive(Drop)]
pub enum Attribute {
    Word(Key, &'static str),
    Number(Key, u64),
    /// A constant and a number behind it, as `p3`.
    Named(Key, &'static str, u64),
    /// Hundredths of a percent, as `12.50%`.
    Share(Key, u64),
    /// The moves of a path.
    Path(Vec<Move>),
}

/// The name as HTML and SVG write it.
pub(crate) fn key_name(key: Key) -> &'static str
    ensures { result.now ≡ key_name key }
{
    match key {
        Key::AriaHidden => "aria-hidden",
        Key::AriaLabel => "aria-label",
        Key::Checked => "checked",
        Key::Class => "class",
        Key::Colspan => "colspan",
        Key::D => "d",
        Key::DataLabel => "data-l",
        Key::Height => "height",
        Key::Href => "href",
        Key::Id => "id",
        Key::Name => "name",
        Key::Open => "open",
        Key::Overflow => "overflow",
        Key::PreserveAspectRatio => "preserveAspectRatio",
        Key::Role => "role",
        Key::Rx => "rx",
        Key::Scope => "scope",
        Key::TextAnchor => "text-anchor",
        Key::Type => "type",
        Key::ViewBox => "viewBox",
        Key::Width => "width",
        Key::X => "x",
        Key::X1 => "x1",
        Key::X2 => "x2",
        Key::Y => "y",
        Key::Y1 => "y1",
        Key::Y2 => "y2",
    }
}
