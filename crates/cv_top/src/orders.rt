//! What the words of a command ask for.

use cv_model::{Rgb, View};
use std::marker::Model;

/// What the words of a command ask for.
#[derive(Debug, Drop)]
pub enum Order<'a> {
    /// One delimited text is painted over white.
    Quick(QuickOrder<'a>),
    /// A project is opened, and a report on it is printed.
    Check(CheckOrder<'a>),
    /// A canvas of a project is painted.
    Paint(PaintOrder<'a>),
    /// A script is played on a project.
    Session(SessionOrder<'a>),
}

/// What the words of `quick` ask for.
#[derive(Debug, Drop)]
pub struct QuickOrder<'a> {
    /// The name of the delimited text.
    pub csv: &'a str,
    /// The name of the picture.
    pub out: &'a str,
    /// The view of the extent at the size.
    pub view: View,
    /// The colour of the polygons.
    pub fill: Rgb,
}

impl<'a> Model for QuickOrder<'a> {
    ghost use Rattle.cv_top.specs.Parts.{QuickParts};

    ghost Value = { QuickParts };

    ghost view = { λ q. record { csv = q.csv.now; out = q.out.now; view = q.view; fill = q.fill } };
}

/// What the words of `check` ask for.
#[derive(Debug, Drop)]
pub struct CheckOrder<'a> {
    /// The name of the project.
    pub project: &'a str,
}

impl<'a> Model for CheckOrder<'a> {
    ghost use Rattle.cv_top.specs.Parts.{CheckParts};

    ghost Value = { CheckParts };

    ghost view = { λ q. record { project = q.project.now } };
}

/// What the words of `paint` ask for.
#[derive(Debug, Drop)]
pub struct PaintOrder<'a> {
    /// The name of the project.
    pub project: &'a str,
    /// The canvas, as it is written.
    pub number: &'a str,
    /// Its number, counted from 0.
    pub canvas: u32,
    /// The name of the picture.
    pub out: &'a str,
}

impl<'a> Model for PaintOrder<'a> {
    ghost use Rattle.cv_top.specs.Parts.{PaintParts};

    ghost Value = { PaintParts };

    ghost view = { λ q. record {
      project = q.project.now;
      number = q.number.now;
      canvas = q.canvas;
      out = q.out.now;
    } };
}

/// What the words of `session` ask for.
#[derive(Debug, Drop)]
pub struct SessionOrder<'a> {
    /// The name of the project.
    pub project: &'a str,
    /// The name of the script.
    pub script: &'a str,
    /// How many workers there are, which is none, as it is written.
    pub number: &'a str,
}

impl<'a> Model for SessionOrder<'a> {
    ghost use Rattle.cv_top.specs.Parts.{SessionParts};

    ghost Value = { SessionParts };

    ghost view = { λ q. record {
      project = q.project.now;
      script = q.script.now;
      number = q.number.now;
    } };
}
