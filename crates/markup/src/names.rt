//! The elements and attributes that a page may have.
ghost use Rattle.std.specs.Prelude.{◌≡◌};
ghost use Rattle.markup.specs.Names.{attribute_word, element_word};

/// An element of HTML or, from `Svg` on, of SVG.
#[derive(Clone, Copy, Debug, PartialEq, Eq)]
pub enum Element {
    /// `html`
    Html,
    /// `head`
    Head,
    /// `meta`
    Meta,
    /// `title`
    Title,
    /// `style`
    Style,
    /// `script`
    Script,
    /// `body`
    Body,
    /// `main`
    Main,
    /// `header`
    Header,
    /// `section`
    Section,
    /// `nav`
    Nav,
    /// `h1`
    Heading1,
    /// `h2`
    Heading2,
    /// `h3`
    Heading3,
    /// `p`
    Paragraph,
    /// `div`
    Division,
    /// `span`
    Span,
    /// `b`
    Strong,
    /// `a`
    Link,
    /// `ol`
    List,
    /// `li`
    Item,
    /// `table`
    Table,
    /// `thead`
    TableHead,
    /// `tbody`
    TableBody,
    /// `tr`
    Row,
    /// `th`
    HeadCell,
    /// `td`
    Cell,
    /// `details`
    Details,
    /// `summary`
    Summary,
    /// `button`
    Button,
    /// `input`
    Input,
    /// `label`
    Label,
    /// `select`
    Select,
    /// `option`
    Choice,
    /// `output`
    Output,
    /// `pre`
    Preformatted,
    /// `code`
    Code,
    /// `svg`
    Svg,
    /// `g`
    Group,
    /// `path`
    Path,
    /// `line`
    Line,
    /// `rect`
    Rectangle,
    /// `circle`
    Circle,
    /// `text`
    Text,
    /// `defs`
    Definitions,
    /// `marker`
    Marker,
}

/// An attribute of an element.
#[derive(Clone, Copy, Debug, PartialEq, Eq)]
pub enum Attribute {
    /// `class`
    Class,
    /// `id`
    Id,
    /// `title`
    Title,
    /// `lang`
    Language,
    /// `charset`
    Charset,
    /// `name`
    Name,
    /// `content`
    Content,
    /// `http-equiv`
    Equivalent,
    /// `type`
    Type,
    /// `value`
    Value,
    /// `min`
    Minimum,
    /// `max`
    Maximum,
    /// `step`
    Step,
    /// `href`
    Target,
    /// `for`
    For,
    /// `role`
    Role,
    /// `aria-label`
    Label,
    /// `aria-controls`
    Controls,
    /// `aria-hidden`
    Hidden,
    /// `scope`
    Scope,
    /// `open`
    Open,
    /// `data-f`
    Flight,
    /// `data-node`
    Node,
    /// `data-k`
    Kind,
    /// `data-n`
    Nodes,
    /// `width`
    Width,
    /// `height`
    Height,
    /// `viewBox`
    ViewBox,
    /// `d`
    Outline,
    /// `x`
    X,
    /// `y`
    Y,
    /// `x1`
    StartX,
    /// `y1`
    StartY,
    /// `x2`
    EndX,
    /// `y2`
    EndY,
    /// `cx`
    CentreX,
    /// `cy`
    CentreY,
    /// `r`
    Radius,
    /// `text-anchor`
    Anchor,
    /// `orient`
    Orientation,
    /// `refX`
    ReferenceX,
    /// `refY`
    ReferenceY,
    /// `markerWidth`
    MarkerWidth,
    /// `markerHeight`
    MarkerHeight,
    /// `marker-end`
    MarkerEnd,
}

/// The word that names an element.
pub fn element_word(element: Element) -> &'static str
    ensures { result.now ≡ element_word element }
{
    match element {
        Element::Html => "html",
        Element::Head => "head",
        Element::Meta => "meta",
        Element::Title => "title",
        Element::Style => "style",
        Element::Script => "script",
        Element::Body => "body",
        Element::Main => "main",
        Element::Header => "header",
        Element::Section => "section",
        Element::Nav => "nav",
        Element::Heading1 => "h1",
        Element::Heading2 => "h2",
        Element::Heading3 => "h3",
        Element::Paragraph => "p",
        Element::Division => "div",
        Element::Span => "span",
        Element::Strong => "b",
        Element::Link => "a",
        Element::List => "ol",
        Element::Item => "li",
        Element::Table => "table",
        Element::TableHead => "thead",
        Element::TableBody => "tbody",
        Element::Row => "tr",
        Element::HeadCell => "th",
        Element::Cell => "td",
        Element::Details => "details",
        Element::Summary => "summary",
        Element::Button => "button",
        Element::Input => "input",
        Element::Label => "label",
        Element::Select => "select",
        Element::Choice => "option",
        Element::Output => "output",
        Element::Preformatted => "pre",
        Element::Code => "code",
        Element::Svg => "svg",
        Element::Group => "g",
        Element::Path => "path",
        Element::Line => "line",
        Element::Rectangle => "rect",
        Element::Circle => "circle",
        Element::Text => "text",
        Element::Definitions => "defs",
        Element::Marker => "marker",
    }
}

/// The word that names an attribute.
pub fn attribute_word(attribute: Attribute) -> &'static str
    ensures { result.now ≡ attribute_word attribute }
{
    match attribute {
        Attribute::Class => "class",
        Attribute::Id => "id",
        Attribute::Title => "title",
        Attribute::Language => "lang",
        Attribute::Charset => "charset",
        Attribute::Name => "name",
        Attribute::Content => "content",
        Attribute::Equivalent => "http-equiv",
        Attribute::Type => "type",
        Attribute::Value => "value",
        Attribute::Minimum => "min",
        Attribute::Maximum => "max",
        Attribute::Step => "step",
        Attribute::Target => "href",
        Attribute::For => "for",
        Attribute::Role => "role",
        Attribute::Label => "aria-label",
        Attribute::Controls => "aria-controls",
        Attribute::Hidden => "aria-hidden",
        Attribute::Scope => "scope",
        Attribute::Open => "open",
        Attribute::Flight => "data-f",
        Attribute::Node => "data-node",
        Attribute::Kind => "data-k",
        Attribute::Nodes => "data-n",
        Attribute::Width => "width",
        Attribute::Height => "height",
        Attribute::ViewBox => "viewBox",
        Attribute::Outline => "d",
        Attribute::X => "x",
        Attribute::Y => "y",
        Attribute::StartX => "x1",
        Attribute::StartY => "y1",
        Attribute::EndX => "x2",
        Attribute::EndY => "y2",
        Attribute::CentreX => "cx",
        Attribute::CentreY => "cy",
        Attribute::Radius => "r",
        Attribute::Anchor => "text-anchor",
        Attribute::Orientation => "orient",
        Attribute::ReferenceX => "refX",
        Attribute::ReferenceY => "refY",
        Attribute::MarkerWidth => "markerWidth",
        Attribute::MarkerHeight => "markerHeight",
        Attribute::MarkerEnd => "marker-end",
    }
}
