//! The whole project.

ghost use Rattle.std.specs.Prelude.{◌≡◌, IfOk};
ghost use Rattle.cv_model.specs.ProjectFiles.{IsInForm};
ghost use Rattle.cv_project.specs.Answers.{Answers};
ghost use Rattle.cv_project.specs.Projects.{known, project_of};

use crate::canvas::CanvasOf;
use crate::kind::{AnyWhole, Background, Kind};
use crate::layer::LayerOf;
use crate::list::{Each, ListOf};
use crate::node::Node;
use crate::ranges::{MOST_CANVASES, MOST_LAYERS};
use crate::refusal::Refusal;
use cv_model::ProjectFile;

/// Whether there is such a version.
#[tactic(auto, unfolding(crate::specs::Projects::known))]
fn known(version: u64) -> Result<(), Refusal>
    ensures { Answers result (known version) }
{
    if version == 1 || version == 2 {
        Ok(())
    } else {
        Err(Refusal::BadVersion)
    }
}

/// A project.
#[derive(Drop)]
pub struct ProjectOf;

impl Kind for ProjectOf {
    type Made = ProjectFile;

    ghost made = { λ _. project_of };

    ghost keeps = { λ _. IsInForm };

    #[tactic(auto, unfolding(crate::specs::Projects::project_of))]
    fn read(&self, node: &Node<'_>) -> Result<ProjectFile, Refusal> {
        node.object()?;
        let version = node.required("version", &AnyWhole)?;
        known(version)?;
        let background = node.required("background", &Background)?;
        let canvases = ListOf {
            least: 0,
            most: MOST_CANVASES,
            of: Each(CanvasOf),
        };
        let canvases = node.required("canvases", &canvases)?;
        let layers = ListOf {
            least: 0,
            most: MOST_LAYERS,
            of: LayerOf { version },
        };
        let layers = node.required("layers", &layers)?;
        node.no_others(&["background", "canvases", "layers", "version"])?;
        Ok(ProjectFile::of(background, canvases, layers))
    }
}
