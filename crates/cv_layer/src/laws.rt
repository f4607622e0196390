//! What holds of boxes whatever the geometry, each the clause of a function of its name.

ghost use Rattle.cv_layer.specs.Boxes.{BoxesHold, NoBoxNoVertex};

/// The box of a geometry holds all its vertices.
pub fn boxes_hold()
    ensures { BoxesHold }
{}

/// A geometry without box has no vertex.
pub fn no_box_no_vertex()
    ensures { NoBoxNoVertex }
{}
