//! Project files, as they are read and written.

ghost use Rattle.std.specs.Prelude.{◌≡◌};

use crate::blend::Blend;
use crate::colour::Rgb;
use crate::delimiter::Delimiter;
use crate::extent::Extent;
use crate::layer::{Join, Scales};
use crate::sequence::Sequence;
use crate::style::Style;
use crate::text::Text;
use std::marker::Model;

/// Where a layer's data stands.
#[derive(Drop)]
pub enum Source {
    /// A delimited text.
    Text {
        /// The file's name.
        file: Text,
        /// What stands between its fields.
        delimiter: Delimiter,
        /// The name of the column with the geometry.
        geometry: Text,
    },
    /// An ASCII grid.
    Grid {
        /// The file's name.
        file: Text,
    },
}

/// A layer of a project file.
#[derive(Drop)]
pub struct LayerFile {
    /// The number that tells it from the project's other layers.
    pub id: u32,
    /// Its name.
    pub name: Text,
    /// Where its data stands.
    pub source: Source,
    /// Whether it is painted.
    pub visible: bool,
    /// From 0 (nothing of it is seen) to 255 (as painted).
    pub opacity: u8,
    /// How its colours are blended onto what lies below.
    pub blend: Blend,
    /// The layer whose polygons it is painted in, if one is named.
    pub mask: Option<u32>,
    /// Where its style takes joined texts from, if it takes any.
    pub join: Option<Join>,
    /// How it is drawn.
    pub style: Style,
    /// The scales at which it is painted.
    pub scales: Scales,
}

/// A canvas of a project file.
#[derive(Clone, Copy, Debug)]
pub struct CanvasFile {
    /// Pixels from left to right.
    pub width: u32,
    /// Pixels from top to bottom.
    pub height: u32,
    /// The bytes that its cached layer images may take.
    pub cache: u64,
    /// What it shows at first, if it shows anything.
    pub extent: Option<Extent>,
}

/// A canvas of an opened project.
#[derive(Clone, Copy, Debug, PartialEq, Eq)]
pub struct CanvasSpec {
    /// Pixels from left to right.
    pub w: u32,
    /// Pixels from top to bottom.
    pub h: u32,
    /// How many layer images it may keep.
    pub capacity: u32,
}

/// The canvases of a project file.
pub type CanvasList = Sequence<CanvasFile>;

/// The layers of a project file, top first.
pub type LayerList = Sequence<LayerFile>;

/// A project file, seen as its background, its canvases and its layers, top first.
#[derive(Drop)]
pub struct ProjectFile {
    background: Rgb,
    canvases: CanvasList,
    layers: LayerList,
}

impl Model for ProjectFile {
    ghost use Rattle.cv_model.specs.ProjectFiles.{FileParts};

    ghost Value = { FileParts };

    ghost view = { λ p. record { background = p.background; canvases = p.canvases; layers = p.layers } };
}

impl ProjectFile {
    /// The project file of these parts.
    pub fn of(background: Rgb, canvases: CanvasList, layers: LayerList) -> ProjectFile
        ensures { result ≡ record { background = background; canvases = canvases; layers = layers } }
    {
        ProjectFile {
            background,
            canvases,
            layers,
        }
    }

    /// The colour below all layers.
    pub fn background(&self) -> Rgb
        ensures { result ≡ self.now.background }
    {
        self.background
    }

    /// The canvases, numbered from 0.
    pub fn canvases(&self) -> &[CanvasFile]
        ensures { result.now ≡ self.now.canvases }
    {
        self.canvases.as_slice()
    }

    /// The layers, top first.
    pub fn layers(&self) -> &[LayerFile]
        ensures { result.now ≡ self.now.layers }
    {
        self.layers.as_slice()
    }

    /// Its background, its canvases and its layers, top first. No memory.
    pub fn into_parts(self) -> (Rgb, CanvasList, LayerList)
        ensures background { result.0 ≡ self.background }
        ensures canvases { result.1 ≡ self.canvases }
        ensures layers { result.2 ≡ self.layers }
    {
        let ProjectFile {
            background,
            canvases,
            layers,
        } = self;
        (background, canvases, layers)
    }
}
