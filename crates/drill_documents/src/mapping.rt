ghost use Rattle.std.specs.Prelude.{IfOk};
ghost use Rattle.drill_documents.specs.Mapping.{IsDrillMapping};

use emc_base::{Bin, Memory};
use std::alloc::Global;

// The model: people, of whom some are employees with at most one boss each, and documents, of which some are reports.
pub const CSDL: &str = r#"{
  "Namespace": "N",
  "EntityContainer": {
    "Name": "C",
    "EntitySet": [{"Name": "People", "EntityType": "N.Person"}, {"Name": "Documents", "EntityType": "N.Document"}],
    "AssociationSet": [{"Name": "Boss", "Association": "N.Boss", "End": [{"Role": "Staff", "EntitySet": "People"}, {"Role": "Manager", "EntitySet": "People"}]}]
  },
  "EntityType": [
    {
      "Name": "Person",
      "Key": ["Id"],
      "Property": [{"Name": "Id", "Type": "Int32", "Nullable": false}, {"Name": "Name", "Type": "String", "Nullable": false, "MaxLength": 20}]
    },
    {"Name": "Employee", "BaseType": "N.Person", "Property": [{"Name": "Level", "Type": "Int32"}]},
    {
      "Name": "Document",
      "Key": ["Id"],
      "Property": [{"Name": "Id", "Type": "Int32", "Nullable": false}, {"Name": "Title", "Type": "String", "Nullable": false, "MaxLength": 20}]
    },
    {"Name": "Report", "BaseType": "N.Document", "Property": [{"Name": "Pages", "Type": "Int32", "Nullable": false}]}
  ],
  "Association": [
    {
      "Name": "Boss",
      "End": [{"Role": "Staff", "Type": "N.Employee", "Multiplicity": "*"}, {"Role": "Manager", "Type": "N.Employee", "Multiplicity": "0..1"}]
    }
  ]
}"#;

// The store: a table of people, whose kind and whose boss have a column each; a table of documents, and one of what reports have besides.
pub const SSDL: &str = r#"{
  "Namespace": "S",
  "EntityContainer": {
    "Name": "D",
    "EntitySet": [{"Name": "People", "EntityType": "S.People"}, {"Name": "Documents", "EntityType": "S.Documents"}, {"Name": "Reports", "EntityType": "S.Reports"}]
  },
  "EntityType": [
    {
      "Name": "People",
      "Key": ["Id"],
      "Property": [
        {"Name": "Id", "Type": "int", "Nullable": false},
        {"Name": "Name", "Type": "nvarchar", "Nullable": false, "MaxLength": 20},
        {"Name": "Kind", "Type": "nvarchar", "Nullable": false, "MaxLength": 1},
        {"Name": "Level", "Type": "int"},
        {"Name": "BossId", "Type": "int"}
      ]
    },
    {
      "Name": "Documents",
      "Key": ["Id"],
      "Property": [{"Name": "Id", "Type": "int", "Nullable": false}, {"Name": "Title", "Type": "nvarchar", "Nullable": false, "MaxLength": 20}]
    },
    {"Name": "Reports", "Key": ["Id"], "Property": [{"Name": "Id", "Type": "int", "Nullable": false}, {"Name": "Pages", "Type": "int", "Nullable": false}]}
  ],
  "Association": [
    {
      "Name": "FK_Boss",
      "End": [{"Role": "Manager", "Type": "S.People", "Multiplicity": "0..1"}, {"Role": "Staff", "Type": "S.People", "Multiplicity": "*"}],
      "ReferentialConstraint": {"Principal": {"Role": "Manager", "PropertyRef": ["Id"]}, "Dependent": {"Role": "Staff", "PropertyRef": ["BossId"]}}
    },
    {
      "Name": "FK_Report",
      "End": [{"Role": "Document", "Type": "S.Documents", "Multiplicity": "1"}, {"Role": "Report", "Type": "S.Reports", "Multiplicity": "0..1"}],
      "ReferentialConstraint": {"Principal": {"Role": "Document", "PropertyRef": ["Id"]}, "Dependent": {"Role": "Report", "PropertyRef": ["Id"]}}
    }
  ]
}"#;

// The mapping of that model to that store.
pub const MSL: &str = r#"{
  "EntityContainerMapping": {
    "StorageEntityContainer": "D",
    "CdmEntityContainer": "C",
    "EntitySetMapping": [
      {
        "Name": "People",
        "EntityTypeMapping": [
          {
            "TypeName": "N.Person",
            "MappingFragment": [
              {
                "StoreEntitySet": "People",
                "ScalarProperty": [{"Name": "Id", "ColumnName": "Id"}, {"Name": "Name", "ColumnName": "Name"}],
                "Condition": [{"ColumnName": "Kind", "Value": "P"}]
              }
            ]
          },
          {
            "TypeName": "N.Employee",
            "MappingFragment": [
              {
                "StoreEntitySet": "People",
                "ScalarProperty": [{"Name": "Id", "ColumnName": "Id"}, {"Name": "Name", "ColumnName": "Name"}, {"Name": "Level", "ColumnName": "Level"}],
                "Condition": [{"ColumnName": "Kind", "Value": "E"}]
              }
            ]
          }
        ]
      },
      {
        "Name": "Documents",
        "EntityTypeMapping": [
          {
            "TypeName": "IsTypeOf(N.Document)",
            "MappingFragment": [{"StoreEntitySet": "Documents", "ScalarProperty": [{"Name": "Id", "ColumnName": "Id"}, {"Name": "Title", "ColumnName": "Title"}]}]
          },
          {
            "TypeName": "IsTypeOf(N.Report)",
            "MappingFragment": [{"StoreEntitySet": "Reports", "ScalarProperty": [{"Name": "Id", "ColumnName": "Id"}, {"Name": "Pages", "ColumnName": "Pages"}]}]
          }
        ]
      }
    ],
    "AssociationSetMapping": [
      {
        "Name": "Boss",
        "TypeName": "N.Boss",
        "StoreEntitySet": "People",
        "EndProperty": [
          {"Name": "Staff", "ScalarProperty": [{"Name": "Id", "ColumnName": "Id"}]},
          {"Name": "Manager", "ScalarProperty": [{"Name": "Id", "ColumnName": "BossId"}]}
        ]
      }
    ]
  }
}"#;

/// The three documents of the mapping that `drill` tries.
#[derive(Drop)]
pub struct DrillMapping {
    pub csdl: Bin,
    pub ssdl: Bin,
    pub msl: Bin,
}

/// The mapping that `drill` tries. `Memory` comes where memory ran out.
pub fn drill_mapping(alloc: Global) -> Result<DrillMapping, Memory>
    ensures { IfOk result IsDrillMapping }
{
    let csdl = Bin::of(alloc, CSDL.as_bytes())?;
    let ssdl = Bin::of(alloc, SSDL.as_bytes())?;
    let msl = Bin::of(alloc, MSL.as_bytes())?;
    Ok(DrillMapping { csdl, ssdl, msl })
}
