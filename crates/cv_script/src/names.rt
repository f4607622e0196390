//! The names of commands, and of the edits among them.

use crate::spelling::Spelling;

/// A command that is no edit, without its arguments.
#[derive(Clone, Copy, Debug, PartialEq, Eq)]
pub enum CommandName {
    View,
    Pan,
    Zoom,
    Start,
    Cancel,
    Wait,
    Take,
    Give,
    Preview,
    Save,
}

impl Spelling for CommandName {
    ghost use Rattle.cv_script.specs.Table.{command_spelling, command_names};

    ghost spelling = { command_spelling };

    ghost all = { command_names };

    fn spelled(self) -> &'static str {
        match self {
            CommandName::View => "view",
            CommandName::Pan => "pan",
            CommandName::Zoom => "zoom",
            CommandName::Start => "start",
            CommandName::Cancel => "cancel",
            CommandName::Wait => "wait",
            CommandName::Take => "take",
            CommandName::Give => "give",
            CommandName::Preview => "preview",
            CommandName::Save => "save",
        }
    }

    fn values() -> &'static [CommandName] {
        &[
            CommandName::View,
            CommandName::Pan,
            CommandName::Zoom,
            CommandName::Start,
            CommandName::Cancel,
            CommandName::Wait,
            CommandName::Take,
            CommandName::Give,
            CommandName::Preview,
            CommandName::Save,
        ]
    }
}

/// An edit, without its arguments.
#[derive(Clone, Copy, Debug, PartialEq, Eq)]
pub enum EditName {
    AddFeature,
    InsertFeature,
    RemoveFeature,
    SetGeometry,
    SetAttribute,
    SetCell,
    SetStyle,
    SetRamp,
    SetMask,
    SetJoin,
    AddLayer,
    RemoveLayer,
    SetOpacity,
    SetBlend,
    Show,
    Hide,
    MoveLayer,
    SetBackground,
    SetScales,
}

impl Spelling for EditName {
    ghost use Rattle.cv_script.specs.Table.{edit_spelling, edit_names};

    ghost spelling = { edit_spelling };

    ghost all = { edit_names };

    fn spelled(self) -> &'static str {
        match self {
            EditName::AddFeature => "add-feature",
            EditName::InsertFeature => "insert-feature",
            EditName::RemoveFeature => "remove-feature",
            EditName::SetGeometry => "set-geometry",
            EditName::SetAttribute => "set-attribute",
            EditName::SetCell => "set-cell",
            EditName::SetStyle => "set-style",
            EditName::SetRamp => "set-ramp",
            EditName::SetMask => "set-mask",
            EditName::SetJoin => "set-join",
            EditName::AddLayer => "add-layer",
            EditName::RemoveLayer => "remove-layer",
            EditName::SetOpacity => "opacity",
            EditName::SetBlend => "blend",
            EditName::Show => "show",
            EditName::Hide => "hide",
            EditName::MoveLayer => "move",
            EditName::SetBackground => "background",
            EditName::SetScales => "set-scales",
        }
    }

    fn values() -> &'static [EditName] {
        &[
            EditName::AddFeature,
            EditName::InsertFeature,
            EditName::RemoveFeature,
            EditName::SetGeometry,
            EditName::SetAttribute,
            EditName::SetCell,
            EditName::SetStyle,
            EditName::SetRamp,
            EditName::SetMask,
            EditName::SetJoin,
            EditName::AddLayer,
            EditName::RemoveLayer,
            EditName::SetOpacity,
            EditName::SetBlend,
            EditName::Show,
            EditName::Hide,
            EditName::MoveLayer,
            EditName::SetBackground,
            EditName::SetScales,
        ]
    }
}
